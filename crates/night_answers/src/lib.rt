// One body's answer in the midnight run: its row's own 3, then 10, then 2 of its window, then what the step gives. It is the single step's
// (proofs/Bodies.antt, `single`), over a summary too (proofs/Summed.antt).
#![tactic(auto)]

ghost use Rattle.std.specs.Prelude.{◌≡◌, get_or, map};
ghost use Rattle.base.specs.Refusals.{asked};
ghost use Rattle.step_answers.specs.Answers.{falling_answer};
ghost use Rattle.night_rows.specs.Rows.{row_seen, named_in, given_in, fall_in};
ghost use Rattle.night_answers.specs.Answers.{lent_with, checked_step, late_body, wrong_step, row_answer_by};

use base::{Refusal, Verdict};
use night_rows::{BodyRow, WindowRow, Windows};
use night_windows::{cells_in, last_in, step_words};
use step_answers::FallingTick;
use tables::Tables;
use window::View;

// The step in a window that passed its check.
#[tactic(auto, unfolding(crate::specs::Answers::checked_step))]
fn checked_step(
    tables: Tables<'_>,
    cells: &[u32],
    w: WindowRow,
    row: BodyRow<'_>,
) -> Result<FallingTick, Refusal>
    ensures { falling_answer (given_in (row_seen row.entry)) (fall_in (row_seen row.entry)) (asked result) ≡ checked_step tables.entry.records.now tables.entry.shapes.now cells.now w (row_seen row.entry) }
{
    let rules = row.rules();
    let own = View {
        words: cells_in(cells, w),
        window: w.window,
    };
    let view = View {
        words: step_words(own, rules.air),
        window: w.window,
    };
    falls::step_falling_checked(
        tables,
        view,
        rules,
        row.body(),
        row.given(),
        row.age(),
        row.fall(),
    )
}

// What the check of a window said; `Window` for one that is none.
fn check_of<V: Verdict>(checked: &[V], j: u32) -> V
    ensures { V.says result ≡ get_or (map V.says checked.now) j 2 }
{
    match checked.get(j as usize) {
        Some(&said) => said,
        None => V::refused(Refusal::Window),
    }
}

// `Summary` of the window's summary, after the body's own `Number` and `Place`.
#[tactic(auto, using(base::proofs::Cases::cases), unfolding(crate::specs::Answers::late_body, base::specs::Choose::choose))]
fn late_body(tables: Tables<'_>, row: BodyRow<'_>) -> Result<FallingTick, Refusal>
    ensures { falling_answer (given_in (row_seen row.entry)) (fall_in (row_seen row.entry)) (asked result) ≡ late_body tables.entry.records.now (row_seen row.entry) }
{
    if !fall_rule::fall_fits(row.fall()) {
        return Err(Refusal::Number);
    }
    bodies::check_numbers(tables, row.rules(), row.body(), row.given())?;
    Err(Refusal::Summary)
}

// A window whose check said `Summary`, of which a body of another air state does not know, or `Window`.
#[tactic(auto, using(base::proofs::Cases::cases), unfolding(crate::specs::Answers::wrong_step, base::specs::Choose::choose))]
fn wrong_step<V: Verdict>(
    said: V,
    tables: Tables<'_>,
    cells: &[u32],
    w: WindowRow,
    row: BodyRow<'_>,
) -> Result<FallingTick, Refusal>
    ensures { falling_answer (given_in (row_seen row.entry)) (fall_in (row_seen row.entry)) (asked result) ≡ wrong_step (V.says said) tables.entry.records.now tables.entry.shapes.now cells.now w (row_seen row.entry) }
{
    if said.told() != Refusal::Summary.number() {
        return Err(Refusal::Window);
    }
    if last_in(cells_in(cells, w)) == row.rules().air {
        return late_body(tables, row);
    }
    checked_step(tables, cells, w, row)
}

/// One body's answer, by what the checks of all windows said: `Number` for a row that is not there whole, then `NoWindow`, then `Window`, then what the
/// step gives, with `Summary` after `Place`.
#[tactic(auto, using(base::proofs::Cases::cases), unfolding(crate::specs::Answers::row_answer_by, base::specs::Choose::choose))]
pub fn row_answer<V: Verdict>(
    tables: Tables<'_>,
    windows: Windows<'_>,
    checked: &[V],
    row: BodyRow<'_>,
) -> Result<FallingTick, Refusal>
    ensures { falling_answer (given_in (row_seen row.entry)) (fall_in (row_seen row.entry)) (asked result) ≡ row_answer_by (get_or (map V.says checked.now) (named_in (row_seen row.entry)) 2) (lent_with tables.entry.records.now tables.entry.shapes.now windows.entry.rows.now windows.entry.count windows.entry.cells.now) (row_seen row.entry) }
{
    if !row.is_whole() {
        return Err(Refusal::Number);
    }
    let named = row.named();
    if named >= windows.count {
        return Err(Refusal::NoWindow);
    }
    let w = windows.at(named);
    let said = check_of(checked, named);
    if said.told() == 0 {
        return checked_step(tables, windows.cells, w, row);
    }
    wrong_step(said, tables, windows.cells, w, row)
}
