// Module 7: what the flows of the cells that an item's box reaches do to its velocity.
#![tactic(auto)]

ghost use Rattle.std.specs.Prelude.{◌≡◌};
ghost use Rattle.base.specs.Ask.{next};
ghost use Rattle.base.specs.Refusals.{asked, asked_as};
ghost use Rattle.window.specs.Views.{look_in};
ghost use Rattle.currents.specs.Current.{beyond_reach, cells_up_to, current_range, same_pos, liquid_known, no_streams, one_more_than, stream_with, gathered, current_turn, direction_of, carried_by, current_of, item_current};

use base::Refusal;
use boxes::vectors::{add, add_scaled, normalize_or_zero, zero};
use boxes::{Aabb, Vec3};
use flow::{is_liquid, liquid_at, liquid_flow};
use ranges::{Axis, Range};
use tables::{LiquidKind, LiquidState, Tables};
use window::{Pos, View};

/// The flows of one kind of liquid, summed, and how many there were: 0, 1, or 2 for more.
#[derive(Clone, Copy)]
pub struct Stream {
    pub flow: Vec3,
    pub count: u32,
}

#[derive(Clone, Copy)]
pub struct Streams {
    pub water: Stream,
    pub lava: Stream,
}

/// What the flows add to an item's velocity, in blocks a tick, and whether there is water among them.
#[derive(Clone, Copy)]
pub struct Current {
    pub flow: Vec3,
    pub water: bool,
}

/// A number of the box is not finite or lies beyond 2^26, where `cell` stops: no window holds all cells that the box reaches.
fn is_beyond(aabb: Aabb) -> bool
    ensures { result ≡ beyond_reach aabb }
{
    !(boxes::are_within(aabb.min, 67108864.0) && boxes::are_within(aabb.max, 67108864.0))
}

/// The cells from lo.floor() up to hi.ceil(), which is excluded. The ceiling is the floor of the number turned round.
#[tactic(auto, using(std::proofs::lemmas::Int::ints))]
fn cells_up_to(lo: f64, hi: f64) -> Axis
    ensures { result ≡ cells_up_to lo hi }
{
    let first = wholes::cell(lo);
    let turned = wholes::cell(-hi);
    let n = 0 - i64::from(turned) - i64::from(first);
    Axis {
        first,
        count: if n < 0 { 0 } else { n as u32 },
    }
}

#[tactic(auto, unfolding(crate::specs::Current::current_range))]
fn current_range(aabb: Aabb) -> Range
    ensures { result ≡ current_range aabb }
{
    Range {
        x: cells_up_to(aabb.min.x, aabb.max.x),
        y: cells_up_to(aabb.min.y, aabb.max.y),
        z: cells_up_to(aabb.min.z, aabb.max.z),
    }
}

/// The liquid at p; the cell of the feet is known already.
#[tactic(auto, using(base::proofs::Cases::cases, crate::proofs::Cells::same_cell), unfolding(crate::specs::Current::liquid_known, base::specs::Choose::choose))]
pub fn liquid_known(
    tables: Tables<'_>,
    view: View<'_>,
    foot: Pos,
    state: LiquidState,
    p: Pos,
) -> Result<LiquidState, Refusal>
    ensures { asked result ≡ liquid_known (look_in view.entry) tables.entry.records.now foot state p }
{
    if p == foot {
        return Ok(state);
    }
    liquid_at(tables, view, p)
}

fn no_streams() -> Streams
    ensures { result ≡ no_streams }
{
    let none = Stream {
        flow: zero(),
        count: 0,
    };
    Streams {
        water: none,
        lava: none,
    }
}

#[tactic(auto, using(base::proofs::Cases::cases), unfolding(crate::specs::Current::one_more_than, base::specs::Choose::choose))]
fn one_more(count: u32) -> u32
    ensures { result ≡ one_more_than count }
{
    if count == 0 { 1 } else { 2 }
}

#[tactic(auto, unfolding(crate::specs::Current::stream_with))]
fn stream_with(s: Stream, flow: Vec3) -> Stream
    ensures { result ≡ stream_with s flow }
{
    Stream {
        flow: add(s.flow, flow),
        count: one_more(s.count),
    }
}

#[tactic(auto, unfolding(crate::specs::Current::gathered))]
fn gather(kind: LiquidKind, flow: Vec3, s: Streams) -> Streams
    ensures { result ≡ gathered kind flow s }
{
    match kind {
        LiquidKind::None => s,
        LiquidKind::Water => Streams {
            water: stream_with(s.water, flow),
            ..s
        },
        LiquidKind::Lava => Streams {
            lava: stream_with(s.lava, flow),
            ..s
        },
    }
}

/// One cell.
#[tactic(auto, using(base::proofs::Cases::cases), unfolding(crate::specs::Current::current_turn, base::specs::Choose::choose))]
fn current_turn(
    tables: Tables<'_>,
    view: View<'_>,
    foot: Pos,
    state: LiquidState,
    p: Pos,
    s: Streams,
) -> Result<Streams, Refusal>
    ensures { asked_as next result ≡ current_turn (look_in view.entry) tables.entry.records.now foot state p s }
{
    let here = liquid_known(tables, view, foot, state, p)?;
    if !is_liquid(here.kind) {
        return Ok(s);
    }
    let flow = liquid_flow(tables, view, p, here)?;
    Ok(gather(here.kind, flow, s))
}

/// One flow is taken as it is, several are normalised.
#[tactic(auto, using(base::proofs::Cases::cases), unfolding(crate::specs::Current::direction_of, base::specs::Choose::choose))]
fn direction_of(s: Stream) -> Vec3
    ensures { result ≡ direction_of s }
{
    if s.count == 1 {
        return s.flow;
    }
    normalize_or_zero(s.flow)
}

#[tactic(auto, using(base::proofs::Cases::cases), unfolding(crate::specs::Current::carried_by, base::specs::Choose::choose))]
fn carry(current: Vec3, s: Stream, acceleration: f64) -> Vec3
    ensures { result ≡ carried_by current s acceleration }
{
    if s.count == 0 {
        return current;
    }
    add_scaled(current, direction_of(s), acceleration)
}

/// Water first.
#[tactic(auto, unfolding(crate::specs::Current::current_of))]
fn current_of(s: Streams) -> Current
    ensures { result ≡ current_of s }
{
    let a = carry(zero(), s.water, 0.014);
    let flow = carry(a, s.lava, 0.0035);
    Current {
        flow,
        water: s.water.count != 0,
    }
}

/// The current at an item's box: foot is the cell of its feet, whose liquid `state` was asked for before. It refuses 5 and 7 alone.
pub fn item_current(
    tables: Tables<'_>,
    view: View<'_>,
    aabb: Aabb,
    foot: Pos,
    state: LiquidState,
) -> Result<Current, Refusal>
    ensures { asked result ≡ item_current (look_in view.entry) tables.entry.records.now aabb foot state }
{
    if is_beyond(aabb) {
        return Err(Refusal::OutsideWindow);
    }
    let r = current_range(aabb);
    let mut s = no_streams();
    let mut t = ranges::start(r);
    // One loop over the cells of three axes: three loops, one in the other, are no plainer, and take three invariants.
    while t.y < r.y.count {
        s = current_turn(tables, view, foot, state, ranges::place(r, t), s)?;
        t = ranges::next(r, t);
    }
    Ok(current_of(s))
}
