// How a liquid flows, by what is around it.
ghost use Rattle.std.specs.Prelude.{◌≡◌};
ghost use Rattle.base.specs.Refusals.{asked};
ghost use Rattle.window.specs.Views.{look_in};
ghost use Rattle.flow.specs.Flow.{difference, walled_by, liquid_flow};

use crate::{are_alike, blocks_liquid_flow, liquid_of};
use base::Refusal;
use boxes::Vec3;
use boxes::vectors::zero;
use cover::Side;
use flow_sides::{
    SIDES, asks_walls, difference_below, difference_to, effective_depth, flow_by, normalised_flow,
    side_step,
};
use tables::{LiquidState, Tables};
use window::{Pos, View};

/// By how much the liquid on a side is deeper: beside, or below that where nothing stops the flow.
#[tactic(auto, using(base::proofs::Cases::cases), unfolding(crate::specs::Flow::difference, crate::specs::Liquid::liquid_held, flow_sides::specs::Sides::step_beside, flow_sides::specs::Sides::step_below, base::specs::Choose::choose))]
fn difference_at(
    tables: Tables<'_>,
    view: View<'_>,
    p: Pos,
    state: LiquidState,
    side: Side,
) -> Result<Option<f64>, Refusal>
    ensures { asked result ≡ difference (look_in view.entry) tables.entry.records.now p state side }
{
    let way = side_step(side, 0);
    let depth = effective_depth(state.depth);
    let beside = liquid_of(tables, view.look_by(p, way)?);
    if are_alike(beside.kind, state.kind) {
        return Ok(Some(difference_to(effective_depth(beside.depth), depth)));
    }
    if blocks_liquid_flow(tables, view, p, way)? {
        return Ok(None);
    }
    let under = liquid_of(tables, view.look_by(p, side_step(side, -1))?);
    if are_alike(under.kind, state.kind) {
        return Ok(Some(difference_below(effective_depth(under.depth), depth)));
    }
    Ok(None)
}

/// Whether a falling liquid is beside a wall: the side, then the cell above it, until one is found.
#[tactic(auto, using(base::proofs::Cases::cases), unfolding(crate::specs::Flow::walled_by, flow_sides::specs::Sides::step_beside, flow_sides::specs::Sides::step_above, base::specs::Choose::choose))]
fn walled_by(
    tables: Tables<'_>,
    view: View<'_>,
    p: Pos,
    state: LiquidState,
    side: Side,
    walled: bool,
) -> Result<bool, Refusal>
    ensures { asked result ≡ walled_by (look_in view.entry) tables.entry.records.now p state side walled }
{
    if !asks_walls(state.depth, walled) {
        return Ok(walled);
    }
    if blocks_liquid_flow(tables, view, p, side_step(side, 0))? {
        return Ok(true);
    }
    blocks_liquid_flow(tables, view, p, side_step(side, 1))
}

/// How the liquid at p, which is `state`, flows. It refuses 5 and 7 alone, at the first such cell.
pub fn liquid_flow(
    tables: Tables<'_>,
    view: View<'_>,
    p: Pos,
    state: LiquidState,
) -> Result<Vec3, Refusal>
    ensures { asked result ≡ liquid_flow (look_in view.entry) tables.entry.records.now p state }
{
    let mut flow = zero();
    let mut walled = false;
    for side in SIDES {
        let difference = difference_at(tables, view, p, state, side)?;
        walled = walled_by(tables, view, p, state, side, walled)?;
        flow = flow_by(flow, side, difference);
    }
    Ok(normalised_flow(flow, walled))
}
