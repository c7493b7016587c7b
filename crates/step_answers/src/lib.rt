// What a step comes to, the same with a fall record beside it, the friction under a living body, and what a host is handed of them: a refused
// step hands back what was given. told.rt says what may tell of a step.
#![tactic(auto)]

mod told;

ghost use Rattle.std.specs.Prelude.{◌≡◌};
ghost use Rattle.base.specs.Ask.{found};
ghost use Rattle.base.specs.Refusals.{asked, verdict};
ghost use Rattle.bodies.specs.declared.MotionNumbers.{MotionNumbers};
ghost use Rattle.fall_rule.specs.declared.Fall.{Fall};
ghost use Rattle.step_answers.specs.Answers.{step_answer, made, handed_with, with_fall, fall_left, falling_answer, friction_told, friction_answer};

use base::Refusal;
use bodies::{Motion, MotionNumbers, yes_number};
use drags::{Sample, Support};
use fall_rule::{Fall, fall_after};
use tables::LiquidKind;
pub use told::{FallingTold, StepTold};

/// What a step comes to: the motion after it, the liquid that a living body travelled in, and the sample that it took.
#[derive(Clone, Copy)]
pub struct Tick {
    pub motion: Motion,
    pub liquid: LiquidKind,
    pub support: Support,
}

/// The same, and the fall record after it.
#[derive(Clone, Copy)]
pub struct FallingTick {
    pub tick: Tick,
    pub fall: Fall,
}

/// The friction under a living body, and the sample that it comes from.
#[derive(Clone, Copy)]
pub struct Friction {
    pub value: f64,
    pub sample: Sample,
}

/// What a host is handed of a step, beside the number of a refusal.
#[derive(Clone, Copy)]
pub struct HandedStep {
    pub motion: MotionNumbers,
    pub liquid: LiquidKind,
    pub support: Support,
}

/// The same, and the fall record beside it.
#[derive(Clone, Copy)]
pub struct HandedFalling {
    pub step: HandedStep,
    pub fall: Fall,
}

/// What a host is handed of a step that was made.
pub fn made(tick: Tick) -> HandedStep
    ensures { handed_with result 0 ≡ made tick }
{
    HandedStep {
        motion: MotionNumbers {
            feet: tick.motion.feet,
            velocity: tick.motion.velocity,
            on_ground: yes_number(tick.motion.on_ground),
        },
        liquid: tick.liquid,
        support: tick.support,
    }
}

/// Of a refused step: position, velocity and ground flag as given, liquid none, and no sample asked for.
pub fn handed(given: MotionNumbers, answer: Result<Tick, Refusal>) -> HandedStep
    ensures { handed_with result (verdict answer) ≡ step_answer given (asked answer) }
{
    match answer {
        Err(_) => HandedStep {
            motion: given,
            liquid: LiquidKind::None,
            support: Support::NotAsked,
        },
        Ok(tick) => made(tick),
    }
}

/// The record that a host is handed: as given where the step is refused.
pub fn fall_handed(fall: Fall, answer: Result<FallingTick, Refusal>) -> Fall
    ensures { result ≡ fall_left fall (asked answer) }
{
    match answer {
        Err(_) => fall,
        Ok(t) => t.fall,
    }
}

/// A step, and the record after it: from the feet given to the feet reached. A refused step is handed on.
#[tactic(auto, using(base::proofs::Cases::cases), unfolding(crate::specs::Answers::with_fall, bodies::specs::Body::is_yes, base::specs::Choose::choose))]
pub fn with_fall<A: StepTold>(fall: Fall, given: MotionNumbers, answer: A) -> A::Beside
    ensures { A.Beside.answer result given fall ≡ with_fall fall given (A.answer answer given) }
{
    let after = match answer.made() {
        None => fall,
        Some(step) => {
            let motion = step.motion;
            fall_after(
                fall,
                given.feet.y,
                motion.feet.y,
                motion.on_ground == 1,
                step.liquid,
            )
        }
    };
    answer.beside(fall, after)
}

/// The number that a sample comes to, and the sample.
pub fn friction_by(default: f64, sample: Sample) -> Friction
    ensures { friction_told (found result) ≡ friction_answer default (found sample) }
{
    let value = drags::sample_or(default, sample);
    Friction { value, sample }
}
