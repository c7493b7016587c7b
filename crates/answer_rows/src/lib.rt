// Answers of the midnight run: each is written into its own row, one row behind the other in a lent slice; and how many rows there may be.
#![tactic(auto)]

ghost use Rattle.std.specs.Prelude.{◌≡◌, ◌≤◌, length};
ghost use Rattle.base.specs.Loop.{stored};
ghost use Rattle.base.specs.Refusals.{verdict};
ghost use Rattle.bodies.specs.declared.MotionNumbers.{MotionNumbers};
ghost use Rattle.fall_rule.specs.declared.Fall.{Fall};
ghost use Rattle.answer_rows.specs.Answers.{answer_numbers, row_written, count_refusal};

use base::{Refusal, Verdict};
use bodies::MotionNumbers;
use fall_rule::Fall;
use lent_numbers::put;
use lent_steps::{float_of, put_falling};
use step_answers::FallingTold;

// How many numbers an answer has.
const ANSWER_WIDTH: usize = 13;

// The numbers of an answer, as `answer_numbers` has them.
fn put_answer<A: FallingTold>(row: &mut [f64], given: MotionNumbers, fall: Fall, answer: A)
    requires { 1 ≤ length row.old }
    ensures { row.new ≡ stored row.old 0 (answer_numbers (A.answer answer given fall)) }
{
    put(row, 0, float_of(answer.said().told()));
    put_falling(&mut row[1..], given, fall, answer);
}

/// The answer of body i, which was given this motion and this fall record, in row i of a buffer that has it. A refused `Result` hands back what was given,
/// and a number what stands beside it.
pub fn put_row<A: FallingTold>(out: &mut [f64], i: u32, given: MotionNumbers, fall: Fall, answer: A)
    ensures { out.new ≡ row_written out.old i (A.answer answer given fall) }
{
    let at = i as usize * ANSWER_WIDTH;
    if at < out.len() {
        put_answer(&mut out[at..], given, fall, answer);
    }
}

/// `TooMany` for more than 16 windows or 4,096 bodies, then `Room` for less room than the bodies' answers take.
#[tactic(auto, using(base::proofs::Cases::cases), unfolding(crate::specs::Answers::count_refusal, base::specs::Choose::choose))]
pub fn check_counts(windows: u32, bodies: u32, room: usize) -> Result<(), Refusal>
    ensures { verdict result ≡ count_refusal windows bodies room }
{
    if windows > 16 || bodies > 4096 {
        return Err(Refusal::TooMany);
    }
    if room < bodies as usize * ANSWER_WIDTH {
        return Err(Refusal::Room);
    }
    Ok(())
}
