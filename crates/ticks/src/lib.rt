// Module 8, one tick of a body. This file has its records and what follows the sample; moving.rt has the tick.
#![tactic(auto)]

ghost use Rattle.std.specs.Prelude.{◌≡◌};
ghost use Rattle.ticks.specs.Step.{tick_to, tick_after};

use bodies::{Body, Motion, Rules};
use boxes::Vec3;
use drags::Support;
use step_answers::Tick;
use tables::LiquidKind;

mod moving;

pub use moving::step_through;

/// A body before its move: its velocity, an item's with current and flotation, the liquid that floats an item, and whether it rests.
#[derive(Clone, Copy)]
pub struct Begun {
    pub velocity: Vec3,
    pub flotation: LiquidKind,
    pub rests: bool,
}

fn tick_to(feet: Vec3, velocity: Vec3, grounded: bool, liquid: LiquidKind, support: Support) -> Tick
    ensures { result ≡ tick_to feet velocity grounded liquid support }
{
    Tick {
        motion: Motion {
            feet,
            velocity,
            on_ground: grounded,
        },
        liquid,
        support,
    }
}

/// What follows the move, from the sample on; v is the velocity with its blocked axes zeroed.
#[tactic(auto, using(base::proofs::Cases::cases), unfolding(crate::specs::Step::tick_after, base::specs::Choose::choose))]
fn tick_after(
    rules: Rules,
    body: Body,
    liquid: LiquidKind,
    feet: Vec3,
    grounded: bool,
    support: Support,
    v: Vec3,
) -> Tick
    ensures { result ≡ tick_after rules body liquid feet grounded support v }
{
    if body.model.is_falling_block() && grounded {
        let stopped = Vec3::new(0.0, 0.0, 0.0);
        return tick_to(feet, stopped, grounded, LiquidKind::None, support);
    }
    if body.model.is_living() {
        let velocity = drags::apply_living_drag(rules, body, liquid, support, v);
        return tick_to(feet, velocity, grounded, liquid, support);
    }
    let velocity = drags::dragged(body, support, v);
    tick_to(feet, velocity, grounded, LiquidKind::None, support)
}
