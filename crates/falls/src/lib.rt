// The step with a fall record beside the body; crates/fall_rule has the record's rule. From a fresh record, any list of such steps leaves the drops
// since the last reset (proofs/Steps.antt, `steps-fallen`).
#![tactic(auto)]

ghost use Rattle.std.specs.Prelude.{◌≡◌};
ghost use Rattle.base.specs.Refusals.{asked};
ghost use Rattle.step_answers.specs.Answers.{falling_answer};
ghost use Rattle.falls.specs.Answers.{falling_checked, falling_entry, falling_summed};

use base::Refusal;
use bodies::{BodyNumbers, MotionNumbers, Rules};
use fall_rule::{Fall, fall_fits};
use lent::check_lent;
use step_answers::{FallingTick, with_fall};
use tables::Tables;
use window::View;

/// For hosts that checked tables and window before, once for many bodies: 3 also for the record; then all as `step::step_checked` has it.
#[tactic(auto, using(base::proofs::Cases::cases), unfolding(crate::specs::Answers::falling_checked, step::specs::Answers::checked_entry, step_answers::specs::Answers::with_fall, base::specs::Choose::choose))]
pub fn step_falling_checked(
    tables: Tables<'_>,
    view: View<'_>,
    rules: Rules,
    body: BodyNumbers,
    given: MotionNumbers,
    age: u64,
    fall: Fall,
) -> Result<FallingTick, Refusal>
    ensures { falling_answer given fall (asked result) ≡ falling_checked tables.entry.records.now tables.entry.shapes.now view.entry.words.now view.entry.window rules body given age fall }
{
    if !fall_fits(fall) {
        return Err(Refusal::Number); // before any of the step's own
    }
    let answer = step::step_checked(tables, view, rules, body, given, age);
    with_fall(fall, given, answer)
}

/// For hosts: one tick of a body with its fall record, 1 and 2 before all that.
#[tactic(auto, using(base::proofs::Cases::cases), unfolding(crate::specs::Answers::falling_entry, step_answers::specs::Answers::with_fall, base::specs::Choose::choose))]
pub fn step_falling(
    tables: Tables<'_>,
    view: View<'_>,
    rules: Rules,
    body: BodyNumbers,
    given: MotionNumbers,
    age: u64,
    fall: Fall,
) -> Result<FallingTick, Refusal>
    ensures { falling_answer given fall (asked result) ≡ falling_entry tables.entry.records.now tables.entry.shapes.now view.entry.words.now view.entry.window rules body given age fall }
{
    check_lent(tables, view)?;
    step_falling_checked(tables, view, rules, body, given, age, fall)
}

/// For hosts: the same over a window with a summary behind its words, refused as `step::step_summed` refuses.
#[tactic(auto, using(base::proofs::Cases::cases), unfolding(crate::specs::Answers::falling_summed, step::specs::Answers::step_summed, step_answers::specs::Answers::with_fall, base::specs::Choose::choose))]
pub fn step_falling_summed(
    tables: Tables<'_>,
    view: View<'_>,
    rules: Rules,
    body: BodyNumbers,
    given: MotionNumbers,
    age: u64,
    fall: Fall,
) -> Result<FallingTick, Refusal>
    ensures { falling_answer given fall (asked result) ≡ falling_summed tables.entry.records.now tables.entry.shapes.now view.entry.words.now view.entry.window rules body given age fall }
{
    if !fall_fits(fall) {
        check_lent(tables, summary::plain(view))?;
        return Err(Refusal::Number);
    }
    let answer = step::step_summed(tables, view, rules, body, given, age);
    with_fall(fall, given, answer)
}
