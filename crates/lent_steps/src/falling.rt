// What a step with a fall record comes to, written into lent numbers.
ghost use Rattle.std.specs.Prelude.{◌≡◌};
ghost use Rattle.base.specs.Loop.{stored};
ghost use Rattle.bodies.specs.declared.MotionNumbers.{MotionNumbers};
ghost use Rattle.fall_rule.specs.declared.Fall.{Fall};
ghost use Rattle.lent_steps.specs.Falling.{falling_numbers, falling_written};

use crate::{put_motion, put_support};
use base::Verdict;
use bodies::MotionNumbers;
use fall_rule::Fall;
use lent_numbers::put;
use step_answers::FallingTold;

/// Twelve numbers of what a host is handed, as `falling_numbers` has them: a refused `Result` hands back what was given, and a number what stands beside
/// it. One whose place is not there is dropped.
#[tactic(auto, unfolding(base::specs::Loop::stored))]
pub fn put_falling<A: FallingTold>(out: &mut [f64], given: MotionNumbers, fall: Fall, answer: A)
    ensures { out.new ≡ stored out.old 0 (falling_numbers (A.answer answer given fall)) }
{
    let handed = answer.handed(given, fall);
    let step = handed.step;
    let after = handed.fall;
    put_motion(out, step.motion, step.liquid);
    put(out, 8, after.sum);
    put(out, 9, after.landed);
    put_support(out, 10, step.support);
}

/// The same of a step that is not refused. A refusal writes nothing, so that the record stays with the host as it is.
#[tactic(auto, using(base::proofs::Cases::cases), unfolding(crate::specs::Falling::falling_written, base::specs::Choose::choose))]
pub fn falling_into<A: FallingTold>(
    out: &mut [f64],
    given: MotionNumbers,
    fall: Fall,
    answer: A,
) -> A::Said
    ensures value { A.Said.says result ≡ (A.answer answer given fall).step.refusal }
    ensures out_after { out.new ≡ falling_written out.old (A.answer answer given fall) }
{
    let said = answer.said();
    if said.told() == 0 {
        put_falling(out, given, fall, answer);
    }
    said
}
