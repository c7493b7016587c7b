// Module 5, connections: the state that a fence, pane, bars or wall has beside its neighbours.
#![tactic(auto)]

ghost use Rattle.std.specs.Prelude.{◌≡◌};
ghost use Rattle.base.specs.Refusals.{asked};
ghost use Rattle.window.specs.Views.{look_in};
ghost use Rattle.connect.specs.Connect.{way_to, joins, post, beside_neighbours, connected_state};
ghost use Rattle.connect.specs.Answers.{state_answer, connected_entry};

use base::Refusal;
use cover::Side;
use joining::Joined;
use tables::Tables;
use window::{CellStep, Pos, View};

fn way_to(side: Side) -> CellStep
    ensures { result ≡ way_to side }
{
    match side {
        Side::North => CellStep { x: 0, y: 0, z: -1 },
        Side::East => CellStep { x: 1, y: 0, z: 0 },
        Side::South => CellStep { x: 0, y: 0, z: 1 },
        Side::West => CellStep { x: -1, y: 0, z: 0 },
    }
}

// Asks for the neighbour on a side.
#[tactic(auto, using(base::proofs::Cases::cases), unfolding(crate::specs::Connect::joins, base::specs::Choose::choose))]
fn joins_at(
    tables: Tables<'_>,
    view: View<'_>,
    p: Pos,
    kind: u32,
    side: Side,
) -> Result<bool, Refusal>
    ensures { asked result ≡ joins (look_in view.entry) tables.entry.records.now p kind side }
{
    Ok(match view.look_by(p, way_to(side))? {
        None => true,
        Some(state) => joining::connects(tables, kind, side, state),
    })
}

// Asks for the cell above: whether the post stands.
#[tactic(auto, using(base::proofs::Cases::cases), unfolding(crate::specs::Connect::post, base::specs::Choose::choose, joining::specs::Joining::raised_by))]
fn post_at(tables: Tables<'_>, view: View<'_>, p: Pos, j: Joined) -> Result<bool, Refusal>
    ensures { asked result ≡ post (look_in view.entry) tables.entry.records.now p j }
{
    let above = view.look_by(p, CellStep { x: 0, y: 1, z: 0 })?;
    if !joining::is_straight(j) {
        return Ok(true);
    }
    Ok(match above {
        None => false,
        Some(state) => joining::raised_by(tables, j, state),
    })
}

// The state at p of what connects as this kind. It stands by itself, so that a cell that connects as nothing pays for none of it.
#[tactic(auto, using(base::proofs::Cases::cases), unfolding(crate::specs::Connect::beside_neighbours, base::specs::Choose::choose))]
fn beside_neighbours(
    tables: Tables<'_>,
    view: View<'_>,
    p: Pos,
    kind: u32,
    state: u32,
) -> Result<u32, Refusal>
    ensures { asked result ≡ beside_neighbours (look_in view.entry) tables.entry.records.now p kind state }
{
    let joined = Joined {
        north: joins_at(tables, view, p, kind, Side::North)?,
        east: joins_at(tables, view, p, kind, Side::East)?,
        south: joins_at(tables, view, p, kind, Side::South)?,
        west: joins_at(tables, view, p, kind, Side::West)?,
    };
    let resolved = joining::turn_all(tables, joined, state);
    if kind != 4 {
        return Ok(resolved);
    }
    let on = post_at(tables, view, p, joined)?;
    Ok(joining::posted(tables, resolved, on))
}

/// The state that a record at p has beside its neighbours. It refuses 5 alone, at the first cell that lies outside.
#[tactic(auto, using(base::proofs::Cases::cases), unfolding(crate::specs::Connect::connected_state, base::specs::Choose::choose))]
pub fn connected_state(
    tables: Tables<'_>,
    view: View<'_>,
    p: Pos,
    state: u32,
) -> Result<u32, Refusal>
    ensures { asked result ≡ connected_state (look_in view.entry) tables.entry.records.now p state }
{
    let kind = joining::connect_kind(tables, state);
    if kind == 0 {
        return Ok(state);
    }
    beside_neighbours(tables, view, p, kind, state)
}

/// For hosts: tables and window are checked before any cell is asked for.
#[tactic(auto, using(base::proofs::Cases::cases), unfolding(crate::specs::Answers::connected_entry, base::specs::Choose::choose))]
pub fn connected_state_at(
    tables: Tables<'_>,
    view: View<'_>,
    p: Pos,
    state: u32,
) -> Result<u32, Refusal>
    ensures { state_answer (asked result) ≡ connected_entry tables.entry.records.now tables.entry.shapes.now view.entry.words.now view.entry.window p state }
{
    lent::check_direct(tables, view)?;
    connected_state(tables, view, p, state)
}
