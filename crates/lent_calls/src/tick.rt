// The step over a window, in lent numbers. Where lengths fit and there is room the step itself finds 1 to 4, so that nothing is looked at twice.
ghost use Rattle.std.specs.Prelude.{◌≡◌, length};
ghost use Rattle.base.specs.Refusals.{verdict};
ghost use Rattle.lent_room.specs.Room.{answer_written};
ghost use Rattle.lent_calls.specs.Ticks.{checked_at, step_at, summed_at};

use base::Refusal;
use bodies::{body_from, check_body, motion_from, rules_from};
use lent::check_lent;
use lent_room::{answer_into, short_of, whole_body};
use tables::Tables;
use window::View;

/// The step, with 1 and 2.
pub fn step_lent(
    tables: Tables<'_>,
    view: View<'_>,
    numbers: &[f64],
    words: &[u32],
    age: u64,
    out: &mut [f64],
) -> Result<(), Refusal>
    ensures value { verdict result ≡ (step_at tables.entry.records.now tables.entry.shapes.now view.entry.words.now view.entry.window numbers.now words.now age (length out.old)).refusal }
    ensures out_after { out.new ≡ answer_written out.old (step_at tables.entry.records.now tables.entry.shapes.now view.entry.words.now view.entry.window numbers.now words.now age (length out.old)) }
{
    if !whole_body(numbers, words, out.len()) {
        return short_of(check_lent(tables, view), check_body(tables, numbers, words));
    }
    let rules = rules_from(numbers, words);
    let body = body_from(numbers, words);
    let given = motion_from(numbers, words);
    answer_into(
        out,
        step::step_body_sensed(tables, view, rules, body, given, age),
    )
}

/// The same over a window with a summary of the body's air state: 11 and 13 after 4.
pub fn summed_lent(
    tables: Tables<'_>,
    view: View<'_>,
    numbers: &[f64],
    words: &[u32],
    age: u64,
    out: &mut [f64],
) -> Result<(), Refusal>
    ensures value { verdict result ≡ (summed_at tables.entry.records.now tables.entry.shapes.now view.entry.words.now view.entry.window numbers.now words.now age (length out.old)).refusal }
    ensures out_after { out.new ≡ answer_written out.old (summed_at tables.entry.records.now tables.entry.shapes.now view.entry.words.now view.entry.window numbers.now words.now age (length out.old)) }
{
    if !whole_body(numbers, words, out.len()) {
        return short_of(
            check_lent(tables, summary::plain(view)),
            check_body(tables, numbers, words),
        );
    }
    let rules = rules_from(numbers, words);
    let body = body_from(numbers, words);
    let given = motion_from(numbers, words);
    answer_into(
        out,
        step::step_summed(tables, view, rules, body, given, age),
    )
}

/// The step over tables and a window that were checked before.
pub fn checked_lent(
    tables: Tables<'_>,
    view: View<'_>,
    numbers: &[f64],
    words: &[u32],
    age: u64,
    out: &mut [f64],
) -> Result<(), Refusal>
    ensures value { verdict result ≡ (checked_at tables.entry.records.now tables.entry.shapes.now view.entry.words.now view.entry.window numbers.now words.now age (length out.old)).refusal }
    ensures out_after { out.new ≡ answer_written out.old (checked_at tables.entry.records.now tables.entry.shapes.now view.entry.words.now view.entry.window numbers.now words.now age (length out.old)) }
{
    if !whole_body(numbers, words, out.len()) {
        return short_of(Ok(()), check_body(tables, numbers, words));
    }
    let rules = rules_from(numbers, words);
    let body = body_from(numbers, words);
    let given = motion_from(numbers, words);
    answer_into(
        out,
        step::step_checked(tables, view, rules, body, given, age),
    )
}
