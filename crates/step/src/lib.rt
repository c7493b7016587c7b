// Module 8, the step as a host calls it: 1, 2, 3 and 4 in order, before any cell is asked for; then 5, 6 and 7 as they come.
#![tactic(auto)]

ghost use Rattle.std.specs.Prelude.{◌≡◌};
ghost use Rattle.base.specs.Refusals.{asked};
ghost use Rattle.step_answers.specs.Answers.{step_answer, friction_told};
ghost use Rattle.step.specs.Answers.{checked_entry, step_entry, step_summed, motion_answer, motion_alone, friction_entry};

use base::Refusal;
use bodies::{
    BodyNumbers, Motion, MotionNumbers, Rules, body_of, check_numbers, is_position, motion_of,
    rules_fit,
};
use boxes::Vec3;
use lent::check_lent;
use step_answers::{Friction, Tick, friction_by};
use tables::Tables;
use window::View;

/// For hosts that checked tables and window before, once for many bodies: 3 and 4, then 5, 6 and 7 as they come. That what it hands back is
/// finite is promised of tables that pass the check, and of no others.
#[tactic(auto, using(base::proofs::Cases::cases), unfolding(crate::specs::Answers::checked_entry, base::specs::Choose::choose))]
pub fn step_checked(
    tables: Tables<'_>,
    view: View<'_>,
    rules: Rules,
    body: BodyNumbers,
    given: MotionNumbers,
    age: u64,
) -> Result<Tick, Refusal>
    ensures { step_answer given (asked result) ≡ checked_entry tables.entry.records.now tables.entry.shapes.now view.entry.words.now view.entry.window rules body given age }
{
    check_numbers(tables, rules, body, given)?;
    let view = view.with_air(rules.air);
    ticks::step_through(tables, view, rules, body_of(body), motion_of(given), age)
}

/// For hosts: one tick of a body, the liquid that a living body travelled in, and the sample of the block under it.
#[tactic(auto, using(base::proofs::Cases::cases), unfolding(crate::specs::Answers::step_entry, base::specs::Choose::choose))]
pub fn step_body_sensed(
    tables: Tables<'_>,
    view: View<'_>,
    rules: Rules,
    body: BodyNumbers,
    given: MotionNumbers,
    age: u64,
) -> Result<Tick, Refusal>
    ensures { step_answer given (asked result) ≡ step_entry tables.entry.records.now tables.entry.shapes.now view.entry.words.now view.entry.window rules body given age }
{
    check_lent(tables, view)?;
    step_checked(tables, view, rules, body, given, age)
}

/// For hosts: the same over a window with a summary behind its words, by which the move passes over layers: 11 and 13 after 4.
#[tactic(auto, using(base::proofs::Cases::cases), unfolding(crate::specs::Answers::step_summed, base::specs::Choose::choose))]
pub fn step_summed(
    tables: Tables<'_>,
    view: View<'_>,
    rules: Rules,
    body: BodyNumbers,
    given: MotionNumbers,
    age: u64,
) -> Result<Tick, Refusal>
    ensures { step_answer given (asked result) ≡ step_summed tables.entry.records.now tables.entry.shapes.now view.entry.words.now view.entry.window rules body given age }
{
    check_lent(tables, summary::plain(view))?;
    check_numbers(tables, rules, body, given)?;
    groups::check_summary(tables, view.with_air(rules.air))?;
    step_checked(tables, view, rules, body, given, age)
}

/// For hosts: one tick of a body.
pub fn step_body(
    tables: Tables<'_>,
    view: View<'_>,
    rules: Rules,
    body: BodyNumbers,
    given: MotionNumbers,
    age: u64,
) -> Result<Motion, Refusal>
    ensures { motion_answer given (asked result) ≡ motion_alone (step_entry tables.entry.records.now tables.entry.shapes.now view.entry.words.now view.entry.window rules body given age) }
{
    Ok(step_body_sensed(tables, view, rules, body, given, age)?.motion)
}

/// For hosts: the friction under a living body.
#[tactic(auto, using(base::proofs::Cases::cases), unfolding(crate::specs::Answers::friction_entry, base::specs::Choose::choose))]
pub fn living_block_friction(
    tables: Tables<'_>,
    view: View<'_>,
    rules: Rules,
    feet: Vec3,
) -> Result<Friction, Refusal>
    ensures { friction_told (asked result) ≡ friction_entry tables.entry.records.now tables.entry.shapes.now view.entry.words.now view.entry.window rules feet }
{
    check_lent(tables, view)?;
    if !rules_fit(tables, rules) {
        return Err(Refusal::Number);
    }
    if !is_position(feet) {
        return Err(Refusal::Place);
    }
    let sample = samples::living_sample(tables, view.with_air(rules.air), rules, feet)?;
    Ok(friction_by(rules.friction, sample))
}
