// Module 7, below: what liquid a cell holds, whether it stops a flow, and how a liquid flows by what is around it (sides.rt).
#![tactic(auto)]

mod sides;

ghost use Rattle.std.specs.Prelude.{◌≡◌};
ghost use Rattle.base.specs.Refusals.{asked};
ghost use Rattle.window.specs.Look.{block_asked, block_there, stepped};
ghost use Rattle.window.specs.Views.{look_in};
ghost use Rattle.flow.specs.Liquid.{is_water, is_lava, is_liquid, alike, liquid_in, liquid_told, liquid_held, blocks_liquid_flow};

use base::Refusal;
pub use sides::liquid_flow;
use tables::{LiquidKind, LiquidState, Tables};
use window::{CellStep, Pos, View};

pub fn is_water(kind: LiquidKind) -> bool
    ensures { result ≡ is_water kind }
{
    matches!(kind, LiquidKind::Water)
}

pub fn is_lava(kind: LiquidKind) -> bool
    ensures { result ≡ is_lava kind }
{
    matches!(kind, LiquidKind::Lava)
}

pub fn is_liquid(kind: LiquidKind) -> bool
    ensures { result ≡ is_liquid kind }
{
    !matches!(kind, LiquidKind::None)
}

/// Two liquids of one kind: where there is no liquid nothing is alike.
#[tactic(auto, unfolding(crate::specs::Liquid::alike))]
pub(crate) fn are_alike(kind: LiquidKind, other: LiquidKind) -> bool
    ensures { result ≡ alike kind other }
{
    match kind {
        LiquidKind::None => false,
        LiquidKind::Water => is_water(other),
        LiquidKind::Lava => is_lava(other),
    }
}

/// The liquid of what a cell holds: none of what is not loaded. It is small, so that it goes where it is called.
pub fn liquid_of(tables: Tables<'_>, block: Option<u32>) -> LiquidState
    ensures { result ≡ liquid_in tables.entry.records.now (block_there block) }
{
    match block {
        None => LiquidState {
            kind: LiquidKind::None,
            depth: 0,
        },
        Some(state) => tables.liquid(state),
    }
}

/// The liquid in a cell, from what was looked up there: a look-up outside the window is handed on.
pub fn liquid_told(
    tables: Tables<'_>,
    looked: Result<Option<u32>, Refusal>,
) -> Result<LiquidState, Refusal>
    ensures { asked result ≡ liquid_told tables.entry.records.now (block_asked looked) }
{
    Ok(liquid_of(tables, looked?))
}

/// The liquid in the cell at p.
#[tactic(auto, unfolding(crate::specs::Liquid::liquid_held))]
pub fn liquid_at(tables: Tables<'_>, view: View<'_>, p: Pos) -> Result<LiquidState, Refusal>
    ensures { asked result ≡ liquid_held (look_in view.entry) tables.entry.records.now p }
{
    liquid_told(tables, view.look(p))
}

/// Whether the cell a step away from p stops a flow. The Rust panics at an unregistered state.
#[tactic(auto, using(base::proofs::Cases::cases), unfolding(crate::specs::Liquid::blocks_liquid_flow, base::specs::Choose::choose))]
pub fn blocks_liquid_flow(
    tables: Tables<'_>,
    view: View<'_>,
    p: Pos,
    d: CellStep,
) -> Result<bool, Refusal>
    ensures { asked result ≡ blocks_liquid_flow (look_in view.entry) tables.entry.records.now (stepped p d) }
{
    match view.look_by(p, d)? {
        None => Ok(true),
        Some(state) if tables.is_registered(state) => Ok(tables.blocks_motion(state)),
        Some(_) => Err(Refusal::Unregistered),
    }
}
