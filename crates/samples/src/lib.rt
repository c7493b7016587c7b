// Friction samples: what a step asks of the cells under a body.
#![tactic(auto)]

ghost use Rattle.std.specs.Prelude.{◌≡◌};
ghost use Rattle.base.specs.Refusals.{asked};
ghost use Rattle.window.specs.Look.{block_there};
ghost use Rattle.window.specs.Views.{look_in};
ghost use Rattle.samples.specs.Samples.{sample_of_state, sample_of_block, supporting_friction, sample_cell, living_sample, living_support, ground_support, support_after};

use base::Refusal;
use bodies::{Body, Ground, Rules};
use boxes::Vec3;
use drags::{Sample, Support};
use ranges::cell_holding;
use tables::{LiquidKind, Tables};
use window::{CellStep, Pos, View};

/// The sample of a state: its friction where it is registered and not the air state.
#[tactic(auto, using(base::proofs::Cases::cases), unfolding(crate::specs::Samples::sample_of_state, base::specs::Choose::choose))]
fn sample_of_state(tables: Tables<'_>, air: u32, id: u32) -> Sample
    ensures { result ≡ sample_of_state tables.entry.records.now air id }
{
    if id == air {
        Sample::Air
    } else if tables.is_registered(id) {
        Sample::Friction(tables.friction(id))
    } else {
        Sample::Unregistered
    }
}

fn sampled(tables: Tables<'_>, air: u32, block: Option<u32>) -> Sample
    ensures { result ≡ sample_of_block tables.entry.records.now air (block_there block) }
{
    match block {
        None => Sample::Unloaded,
        Some(id) => sample_of_state(tables, air, id),
    }
}

/// The sample of the block below the feet. It refuses 5 alone.
#[tactic(auto, unfolding(crate::specs::Samples::supporting_friction, crate::specs::Samples::sampled))]
fn supporting_friction(
    tables: Tables<'_>,
    view: View<'_>,
    rules: Rules,
    feet: Vec3,
) -> Result<Sample, Refusal>
    ensures { asked result ≡ supporting_friction (look_in view.entry) tables.entry.records.now rules feet }
{
    let below = view.look_by(cell_holding(feet), CellStep { x: 0, y: -1, z: 0 })?;
    Ok(sampled(tables, rules.air, below))
}

fn sample_cell(rules: Rules, feet: Vec3) -> Pos
    ensures { result ≡ sample_cell rules feet }
{
    cell_holding(Vec3 {
        y: feet.y - rules.depth,
        ..feet
    })
}

/// The sample under a living body. It refuses 5 alone.
#[tactic(auto, unfolding(crate::specs::Samples::living_sample, crate::specs::Samples::sampled))]
pub fn living_sample(
    tables: Tables<'_>,
    view: View<'_>,
    rules: Rules,
    feet: Vec3,
) -> Result<Sample, Refusal>
    ensures { asked result ≡ living_sample (look_in view.entry) tables.entry.records.now rules feet }
{
    let under = view.look(sample_cell(rules, feet))?;
    Ok(sampled(tables, rules.air, under))
}

/// A living body asks on dry ground alone.
#[tactic(auto, using(base::proofs::Cases::cases), unfolding(crate::specs::Samples::living_support, crate::specs::Samples::told, base::specs::Choose::choose))]
fn living_support(
    tables: Tables<'_>,
    view: View<'_>,
    rules: Rules,
    feet: Vec3,
    grounded: bool,
    liquid: LiquidKind,
) -> Result<Support, Refusal>
    ensures { asked result ≡ living_support (look_in view.entry) tables.entry.records.now rules feet grounded liquid }
{
    match liquid {
        LiquidKind::None if grounded => {
            Ok(Support::Asked(living_sample(tables, view, rules, feet)?))
        }
        _ => Ok(Support::NotAsked),
    }
}

#[tactic(auto, unfolding(crate::specs::Samples::told))]
fn ground_support(
    tables: Tables<'_>,
    view: View<'_>,
    rules: Rules,
    feet: Vec3,
    friction: Ground,
) -> Result<Support, Refusal>
    ensures { asked result ≡ ground_support (look_in view.entry) tables.entry.records.now rules feet friction }
{
    match friction {
        Ground::None => Ok(Support::NotAsked),
        Ground::Block => Ok(Support::Asked(supporting_friction(tables, view, rules, feet)?)),
    }
}

/// What a step asks after its move: one sample at most. It refuses 5 alone.
#[tactic(auto, using(base::proofs::Cases::cases), unfolding(crate::specs::Samples::support_after, base::specs::Choose::choose))]
pub fn support_after(
    tables: Tables<'_>,
    view: View<'_>,
    rules: Rules,
    body: Body,
    liquid: LiquidKind,
    feet: Vec3,
    grounded: bool,
) -> Result<Support, Refusal>
    ensures { asked result ≡ support_after (look_in view.entry) tables.entry.records.now rules body liquid feet grounded }
{
    if body.model.is_falling_block() && grounded {
        return Ok(Support::NotAsked);
    }
    if body.model.is_living() {
        return living_support(tables, view, rules, feet, grounded, liquid);
    }
    if grounded {
        return ground_support(tables, view, rules, feet, body.friction);
    }
    Ok(Support::NotAsked)
}
