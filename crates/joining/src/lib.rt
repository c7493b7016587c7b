// Module 5, without asking for a cell: what a record joins on a side, the states that it turns to, and the post of a wall.
#![tactic(auto)]

ghost use Rattle.std.specs.Prelude.{◌≡◌};
ghost use Rattle.window.specs.Look.{some};
ghost use Rattle.joining.specs.Joining.{along_x, connect_kind, is_fence, is_thin_or_wall, opposite_face, gate_decides, gate_joins, registered_connects, side_word, transition, transitions, straight, raises, raised_by, post_transition};

use cover::Side;
use tables::Tables;

/// Which sides join.
#[derive(Clone, Copy, Debug, PartialEq, Eq)]
pub struct Joined {
    pub north: bool,
    pub east: bool,
    pub south: bool,
    pub west: bool,
}

fn along_x(side: Side) -> bool
    ensures { result ≡ along_x side }
{
    matches!(side, Side::East | Side::West)
}

/// What a state connects as: 0 nothing, 1 fence, 2 nether brick fence, 3 thin, 4 wall.
#[tactic(auto, using(base::proofs::Cases::cases), unfolding(crate::specs::Joining::connect_kind, base::specs::Choose::choose))]
pub fn connect_kind(tables: Tables<'_>, state: u32) -> u32
    ensures { result ≡ connect_kind tables.entry.records.now state }
{
    if tables.is_registered(state) {
        tables.word(state, 4)
    } else {
        0
    }
}

#[tactic(auto, using(base::proofs::Cases::cases), unfolding(crate::specs::Joining::is_fence, base::specs::Choose::choose))]
fn is_fence(kind: u32) -> bool
    ensures { result ≡ is_fence kind }
{
    matches!(kind, 1 | 2)
}

#[tactic(auto, using(base::proofs::Cases::cases), unfolding(crate::specs::Joining::is_thin_or_wall, base::specs::Choose::choose))]
fn is_thin_or_wall(kind: u32) -> bool
    ensures { result ≡ is_thin_or_wall kind }
{
    matches!(kind, 3 | 4)
}

// Whether the neighbour's face towards us, which is opposite to its side, is full.
#[tactic(auto, unfolding(crate::specs::Joining::opposite_face))]
fn opposite_face(faces: u32, side: Side) -> bool
    ensures { result ≡ opposite_face faces side }
{
    match side {
        Side::North => faces / 4 % 2 == 1,
        Side::East => faces / 8 % 2 == 1,
        Side::South => faces % 2 == 1,
        Side::West => faces / 2 % 2 == 1,
    }
}

#[tactic(auto, using(base::proofs::Cases::cases), unfolding(crate::specs::Joining::gate_decides, base::specs::Choose::choose))]
fn gate_decides(kind: u32, gate: u32) -> bool
    ensures { result ≡ gate_decides kind gate }
{
    kind != 3 && gate != 0
}

#[tactic(auto, using(base::proofs::Cases::cases), unfolding(crate::specs::Joining::gate_joins, base::specs::Choose::choose))]
fn gate_joins(gate: u32, side: Side) -> bool
    ensures { result ≡ gate_joins gate side }
{
    if along_x(side) { gate == 1 } else { gate != 1 }
}

/// Whether what connects as `kind` joins a neighbour of this state on this side.
#[tactic(auto, using(base::proofs::Cases::cases), unfolding(crate::specs::Joining::registered_connects, base::specs::Choose::choose))]
pub fn connects(tables: Tables<'_>, kind: u32, side: Side, state: u32) -> bool
    ensures { result ≡ registered_connects tables.entry.records.now kind side state }
{
    if !tables.is_registered(state) {
        return false;
    }
    let other = tables.word(state, 4);
    if is_fence(kind) && is_fence(other) {
        return kind == other;
    }
    if is_thin_or_wall(kind) && is_thin_or_wall(other) {
        return true;
    }
    let gate = tables.word(state, 5);
    if gate_decides(kind, gate) {
        gate_joins(gate, side)
    } else {
        opposite_face(tables.word(state, 19), side)
    }
}

#[tactic(auto, using(base::proofs::Cases::cases), unfolding(crate::specs::Joining::side_word, base::specs::Choose::choose))]
fn side_word(side: Side, on: bool) -> u32
    ensures { result ≡ side_word side on }
{
    match side {
        Side::North => if on { 10 } else { 9 },
        Side::East => if on { 12 } else { 11 },
        Side::South => if on { 14 } else { 13 },
        Side::West => if on { 16 } else { 15 },
    }
}

#[tactic(auto, unfolding(crate::specs::Joining::transition))]
fn turned(tables: Tables<'_>, state: u32, side: Side, on: bool) -> u32
    ensures { result ≡ transition tables.entry.records.now side on state }
{
    tables.word(state, side_word(side, on))
}

/// The transitions side by side, north first.
#[tactic(auto, unfolding(crate::specs::Joining::transitions))]
pub fn turn_all(tables: Tables<'_>, j: Joined, state: u32) -> u32
    ensures { result ≡ transitions tables.entry.records.now j state }
{
    let a = turned(tables, state, Side::North, j.north);
    let b = turned(tables, a, Side::East, j.east);
    let c = turned(tables, b, Side::South, j.south);
    turned(tables, c, Side::West, j.west)
}

/// Whether exactly north and south join, or exactly east and west.
#[tactic(auto, unfolding(crate::specs::Joining::straight))]
pub fn is_straight(j: Joined) -> bool
    ensures { result ≡ straight j }
{
    (j.north & !j.east & j.south & !j.west) | (!j.north & j.east & !j.south & j.west)
}

#[tactic(auto, using(base::proofs::Cases::cases), unfolding(crate::specs::Joining::raises, base::specs::Choose::choose))]
fn raises_post(rule: u32, j: Joined) -> bool
    ensures { result ≡ raises rule j }
{
    match rule {
        1 => true,
        2 => j.north,
        3 => j.east,
        4 => j.south,
        5 => j.west,
        _ => false,
    }
}

/// Whether the record above raises the post of a wall whose sides join so.
#[tactic(auto, using(base::proofs::Cases::cases), unfolding(crate::specs::Joining::raised_by, base::specs::Choose::choose))]
pub fn raised_by(tables: Tables<'_>, j: Joined, above: u32) -> bool
    ensures { result ≡ raised_by tables.entry.records.now j (some above) }
{
    tables.is_registered(above) && raises_post(tables.word(above, 6), j)
}

/// The state with its post, or without.
#[tactic(auto, using(base::proofs::Cases::cases), unfolding(crate::specs::Joining::post_transition, base::specs::Choose::choose))]
pub fn posted(tables: Tables<'_>, state: u32, on: bool) -> u32
    ensures { result ≡ post_transition tables.entry.records.now on state }
{
    tables.word(state, if on { 18 } else { 17 })
}
