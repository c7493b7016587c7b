// The step with a fall record over a window, in lent numbers.
ghost use Rattle.std.specs.Prelude.{◌≡◌, length};
ghost use Rattle.base.specs.Refusals.{verdict};
ghost use Rattle.lent_steps.specs.Falling.{falling_written};
ghost use Rattle.lent_calls.specs.Falling.{falling_refusal, falling_at, falling_summed_at};

use base::Refusal;
use bodies::{body_from, check_body, motion_from, rules_from};
use fall_rule::Fall;
use lent::check_lent;
use lent_room::{short_of, whole_falling};
use lent_steps::falling_into;
use tables::Tables;
use window::View;

// `Number` also for the record.
#[tactic(auto, using(base::proofs::Cases::cases), unfolding(crate::specs::Falling::falling_refusal, base::specs::Choose::choose))]
fn check_falling(
    tables: Tables<'_>,
    numbers: &[f64],
    words: &[u32],
    fall: Fall,
) -> Result<(), Refusal>
    ensures { verdict result ≡ falling_refusal tables.entry.records.now numbers.now words.now fall }
{
    if !fall_rule::fall_fits(fall) {
        return Err(Refusal::Number);
    }
    check_body(tables, numbers, words)
}

/// The step with 1 and 2.
pub fn falling_lent(
    tables: Tables<'_>,
    view: View<'_>,
    numbers: &[f64],
    words: &[u32],
    age: u64,
    fall: Fall,
    out: &mut [f64],
) -> Result<(), Refusal>
    ensures value { verdict result ≡ (falling_at tables.entry.records.now tables.entry.shapes.now view.entry.words.now view.entry.window numbers.now words.now age fall (length out.old)).step.refusal }
    ensures out_after { out.new ≡ falling_written out.old (falling_at tables.entry.records.now tables.entry.shapes.now view.entry.words.now view.entry.window numbers.now words.now age fall (length out.old)) }
{
    if !whole_falling(numbers, words, out.len()) {
        return short_of(
            check_lent(tables, view),
            check_falling(tables, numbers, words, fall),
        );
    }
    let rules = rules_from(numbers, words);
    let body = body_from(numbers, words);
    let given = motion_from(numbers, words);
    let answer = falls::step_falling(tables, view, rules, body, given, age, fall);
    falling_into(out, given, fall, answer)
}

/// The same over a window with a summary of the body's air state: 11 and 13 after 4.
pub fn falling_summed_lent(
    tables: Tables<'_>,
    view: View<'_>,
    numbers: &[f64],
    words: &[u32],
    age: u64,
    fall: Fall,
    out: &mut [f64],
) -> Result<(), Refusal>
    ensures value { verdict result ≡ (falling_summed_at tables.entry.records.now tables.entry.shapes.now view.entry.words.now view.entry.window numbers.now words.now age fall (length out.old)).step.refusal }
    ensures out_after { out.new ≡ falling_written out.old (falling_summed_at tables.entry.records.now tables.entry.shapes.now view.entry.words.now view.entry.window numbers.now words.now age fall (length out.old)) }
{
    if !whole_falling(numbers, words, out.len()) {
        return short_of(
            check_lent(tables, summary::plain(view)),
            check_falling(tables, numbers, words, fall),
        );
    }
    let rules = rules_from(numbers, words);
    let body = body_from(numbers, words);
    let given = motion_from(numbers, words);
    let answer = falls::step_falling_summed(tables, view, rules, body, given, age, fall);
    falling_into(out, given, fall, answer)
}
