// Lengths of what a host hands over in lent numbers, and room for what is written to it.
#![tactic(auto)]

ghost use Rattle.std.specs.Prelude.{◌≡◌};
ghost use Rattle.bodies.specs.declared.MotionNumbers.{MotionNumbers};
ghost use Rattle.lent_room.specs.Room.{short_of, whole_body, whole_falling, answer_written};

use base::{Refusal, Verdict};
use lent_steps::put_step;
use step_answers::StepTold;

/// Whether a body's lengths fit, and there is room for ten numbers.
#[tactic(auto, using(base::proofs::Cases::cases))]
pub fn whole_body(numbers: &[f64], words: &[u32], places: usize) -> bool
    ensures { result ≡ whole_body numbers.now words.now places }
{
    bodies::lengths_fit(numbers, words) && places >= 10
}

/// The same with a fall record: twelve numbers.
#[tactic(auto, using(base::proofs::Cases::cases))]
pub fn whole_falling(numbers: &[f64], words: &[u32], places: usize) -> bool
    ensures { result ≡ whole_falling numbers.now words.now places }
{
    bodies::lengths_fit(numbers, words) && places >= 12
}

/// Where there is no room, or a slice has another length than it should: what is lent comes first, then what is handed over, then `Room`.
#[tactic(auto, using(base::proofs::Cases::cases), unfolding(base::specs::Choose::choose))]
pub fn short_of<V: Verdict>(lent: V, early: V) -> V
    ensures { V.says result ≡ short_of (V.says lent) (V.says early) }
{
    if lent.told() != 0 {
        return lent;
    }
    if early.told() != 0 {
        return early;
    }
    V::refused(Refusal::Room)
}

/// A step's answer, where there is room for it: a refusal writes nothing, so that it is all one what the step was given.
#[tactic(auto, using(base::proofs::Cases::cases), unfolding(crate::specs::Room::answer_written, base::specs::Choose::choose))]
pub fn answer_into<A: StepTold>(out: &mut [f64], answer: A) -> A::Said
    ensures value { (given : MotionNumbers) → A.Said.says result ≡ (A.answer answer given).refusal }
    ensures out_after { (given : MotionNumbers) → out.new ≡ answer_written out.old (A.answer answer given) }
{
    if let Some(step) = answer.made() {
        put_step(out, step);
    }
    answer.said()
}
