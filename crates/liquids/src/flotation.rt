// What liquid an item floats in.
ghost use Rattle.std.specs.Prelude.{◌≡◌};
ghost use Rattle.base.specs.Refusals.{asked};
ghost use Rattle.window.specs.Views.{look_in};
ghost use Rattle.flow.specs.Liquid.{is_falling};
ghost use Rattle.liquids.specs.Flotation.{moved_up, surface_at, under_water, in_lava, water_state, item_flotation};

use base::Refusal;
use boxes::Vec3;
use boxes::vectors::{add_scaled, unit_y};
use currents::liquid_known;
use flow::{is_lava, is_liquid, is_water, liquid_at};
use ranges::{cell_holding, cell_under};
use tables::{LiquidKind, LiquidState, Tables};
use window::{Pos, View};

#[tactic(auto, unfolding(crate::specs::Flotation::moved_up))]
fn move_up(position: Vec3, d: f64) -> Vec3
    ensures { result ≡ moved_up position d }
{
    add_scaled(position, unit_y(), d)
}

#[tactic(auto, using(base::proofs::Cases::cases), unfolding(flow::specs::Liquid::is_falling, base::specs::Choose::choose))]
fn is_falling(state: LiquidState) -> bool
    ensures { result ≡ is_falling state }
{
    is_liquid(state.kind) && state.depth >= 8
}

#[tactic(auto, using(currents::proofs::Cells::read), unfolding(crate::specs::Flotation::surface_at))]
pub(crate) fn surface_at(p: Pos, depth: u32) -> f64
    ensures { result ≡ surface_at p depth }
{
    f64::from(p.y) + 1.0 - f64::from(depth) / 9.0
}

#[tactic(auto, unfolding(crate::specs::Flotation::under_water))]
fn is_under_water(point: Vec3, state: LiquidState) -> bool
    ensures { result ≡ under_water point state }
{
    is_water(state.kind) && point.y < surface_at(cell_holding(point), state.depth)
}

#[tactic(auto, unfolding(crate::specs::Flotation::in_lava))]
fn is_in_lava(state: LiquidState) -> bool
    ensures { result ≡ in_lava state }
{
    is_lava(state.kind) && state.depth < 8
}

/// The liquid at the water point; the cells of the feet and of the wire position are known already.
#[tactic(auto, using(base::proofs::Cases::cases, currents::proofs::Cells::same_cell), unfolding(crate::specs::Flotation::water_state, base::specs::Choose::choose))]
fn water_state(
    tables: Tables<'_>,
    view: View<'_>,
    foot: Pos,
    state: LiquidState,
    wire: Pos,
    here: LiquidState,
    p: Pos,
) -> Result<LiquidState, Refusal>
    ensures { asked result ≡ water_state (look_in view.entry) tables.entry.records.now foot state wire here p }
{
    if p == foot {
        return Ok(state);
    }
    if p == wire {
        return Ok(here);
    }
    liquid_at(tables, view, p)
}

/// What an item at this position floats in: offset and height are its body's, in blocks, foot the cell of its feet with its liquid. It refuses
/// 5 alone.
#[tactic(auto, using(base::proofs::Cases::cases), unfolding(crate::specs::Flotation::item_flotation, base::specs::Choose::choose))]
pub fn item_flotation(
    tables: Tables<'_>,
    view: View<'_>,
    offset: f64,
    height: f64,
    position: Vec3,
    foot: Pos,
    state: LiquidState,
) -> Result<LiquidKind, Refusal>
    ensures { asked result ≡ item_flotation (look_in view.entry) tables.entry.records.now offset height position foot state }
{
    let wire = move_up(position, offset);
    let at = cell_holding(wire);
    let here = liquid_known(tables, view, foot, state, at)?;
    let below = liquid_known(tables, view, foot, state, cell_under(wire))?;
    if is_falling(here) || is_falling(below) {
        return Ok(LiquidKind::None);
    }
    let point = move_up(position, offset + height);
    let over = water_state(tables, view, foot, state, at, here, cell_holding(point))?;
    if is_under_water(point, over) {
        return Ok(LiquidKind::Water);
    }
    if is_in_lava(here) {
        return Ok(LiquidKind::Lava);
    }
    Ok(LiquidKind::None)
}
