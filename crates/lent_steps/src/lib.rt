// What a step comes to, written into lent numbers; falling.rt has the same for a step with a fall record.
#![tactic(auto)]

mod falling;

ghost use Rattle.std.specs.Prelude.{◌≡◌, pos, length};
ghost use Rattle.std.specs.Float.{binary64};
ghost use Rattle.std.specs.Float.Ieee.{of_int};
ghost use Rattle.base.specs.Loop.{stored};
ghost use Rattle.tables.specs.Tables.{kind_number};
ghost use Rattle.bodies.specs.declared.MotionNumbers.{MotionNumbers};
ghost use Rattle.step_answers.specs.Answers.{handed_with};
ghost use Rattle.lent_steps.specs.Steps.{moved_numbers, support_numbers, step_numbers, comes_first, step_refusal, step_written};

use base::{Refusal, Verdict};
use bodies::MotionNumbers;
use drags::Support;
pub use falling::{falling_into, put_falling};
use lent_numbers::{put, put_vec};
use step_answers::{HandedStep, StepTold};
use tables::LiquidKind;

fn kind_number(kind: LiquidKind) -> u32
    ensures { result ≡ kind_number kind }
{
    match kind {
        LiquidKind::None => 0,
        LiquidKind::Water => 1,
        LiquidKind::Lava => 2,
    }
}

pub fn float_of(n: u32) -> f64
    ensures { result ≡ of_int binary64 (pos n) }
{
    n as f64
}

// What is refused before any cell is asked for: 8, and 1 to 4.
#[tactic(auto, using(base::proofs::Cases::cases), unfolding(crate::specs::Steps::comes_first))]
fn comes_first(refusal: u32) -> bool
    ensures { result ≡ comes_first refusal }
{
    refusal == 8 || 1 <= refusal && refusal <= 4
}

// Eight numbers, as `moved_numbers` has them; one whose place is not there is dropped.
#[tactic(auto, unfolding(base::specs::Loop::stored))]
fn put_motion(out: &mut [f64], motion: MotionNumbers, liquid: LiquidKind)
    ensures { out.new ≡ stored out.old 0 (moved_numbers motion liquid) }
{
    put_vec(out, 0, motion.feet);
    put_vec(out, 3, motion.velocity);
    put(out, 6, float_of(motion.on_ground));
    put(out, 7, float_of(kind_number(liquid)));
}

// From place i on: the case of a step's sample, and the sampled number.
#[tactic(auto, unfolding(base::specs::Loop::stored))]
fn put_support(out: &mut [f64], i: u8, s: Support)
    ensures { out.new ≡ stored out.old i (support_numbers s) }
{
    let k = i as usize;
    put(out, k, float_of(drags::case_number(s)));
    put(out, k + 1, drags::sampled_number(s));
}

/// Ten numbers of a step, refused or made, as `step_numbers` has them; one whose place is not there is dropped.
#[tactic(auto, unfolding(base::specs::Loop::stored))]
pub fn put_step(out: &mut [f64], step: HandedStep)
    ensures { out.new ≡ stored out.old 0 (step_numbers (handed_with step 0)) }
{
    put_motion(out, step.motion, step.liquid);
    put_support(out, 8, step.support);
}

/// Feet, velocity, ground, liquid, and the sample: ten numbers. A refusal writes nothing, so that it is all one what the step was given. `Room` is for
/// less room than that: behind what is refused before any cell is asked for, and before all else.
#[tactic(auto, using(base::proofs::Cases::cases), unfolding(crate::specs::Steps::comes_first, crate::specs::Steps::step_refusal, crate::specs::Steps::step_written, base::specs::Choose::choose))]
pub fn step_into<A: StepTold>(out: &mut [f64], answer: A) -> A::Said
    ensures value { (given : MotionNumbers) → A.Said.says result ≡ step_refusal (length out.old) (A.answer answer given) }
    ensures out_after { (given : MotionNumbers) → out.new ≡ step_written out.old (A.answer answer given) }
{
    let said = answer.said();
    if out.len() < 10 && !comes_first(said.told()) {
        return A::Said::refused(Refusal::Room);
    }
    if let Some(step) = answer.made() {
        put_step(out, step);
    }
    said
}
