// The midnight run: up to 4,096 bodies over up to 16 windows and one table. Tables are checked once and each window once, however many bodies
// name it. `night_rows` and `answer_rows` have what stands where, `night_windows` the check of a window, `night_answers` one body's
// answer; here is the call whole.
// Each answer is the single step's, and follows its body in any order (proofs/Orders.antt).
#![tactic(auto)]

ghost use Rattle.std.specs.Prelude.{◌≡◌, ◌≤◌, length};
ghost use Rattle.base.specs.Loop.{stored};
ghost use Rattle.base.specs.Refusals.{verdict};
ghost use Rattle.answer_rows.specs.Answers.{count_refusal};
ghost use Rattle.night_answers.specs.Answers.{lent_with};
ghost use Rattle.midnight.specs.Run.{run_refusal, bodies_of, rows_of, checked_written, run_written};

use answer_rows::{check_counts, put_row};
use base::Refusal;
use night_answers::row_answer;
use night_rows::{Bodies, Windows};
use tables::Tables;

// The answers of so many bodies, each in its row.
fn answer_all(tables: Tables<'_>, windows: Windows<'_>, bodies: Bodies<'_>, out: &mut [f64])
    requires { windows.count ≤ 16 }
    ensures { out.new ≡ stored out.old 0 (rows_of (lent_with tables.entry.records.now tables.entry.shapes.now windows.entry.rows.now windows.entry.count windows.entry.cells.now) (bodies_of bodies.entry.older bodies.entry.numbers.now bodies.entry.words.now bodies.entry.count)) }
{
    let checked = night_windows::check_all(tables, windows);
    for i in 0..bodies.count {
        let row = bodies.row(i);
        let answer = row_answer(tables, windows, &checked, row);
        put_row(out, i, row.given(), row.fall(), answer);
    }
}

/// The call over tables that passed their check before, once for several calls. Refused with `TooMany` or `Room`, and nothing is written.
pub fn run_checked(
    tables: Tables<'_>,
    windows: Windows<'_>,
    bodies: Bodies<'_>,
    out: &mut [f64],
) -> Result<(), Refusal>
    ensures value { verdict result ≡ count_refusal windows.entry.count bodies.entry.count (length out.old) }
    ensures out_after { out.new ≡ checked_written (lent_with tables.entry.records.now tables.entry.shapes.now windows.entry.rows.now windows.entry.count windows.entry.cells.now) (bodies_of bodies.entry.older bodies.entry.numbers.now bodies.entry.words.now bodies.entry.count) out.old }
{
    check_counts(windows.count, bodies.count, out.len())?;
    answer_all(tables, windows, bodies, out);
    Ok(())
}

/// For hosts, the call whole: one tick of each body. 13 numbers are written for each (crates/night_rows/specs/Rows.antt has what stands where in a
/// body's row, and crates/answer_rows/specs/Answers.antt in an answer's). Refused with `Tables`, `TooMany` or `Room`, and nothing is written.
pub fn run(
    tables: Tables<'_>,
    windows: Windows<'_>,
    bodies: Bodies<'_>,
    out: &mut [f64],
) -> Result<(), Refusal>
    ensures value { verdict result ≡ run_refusal (lent_with tables.entry.records.now tables.entry.shapes.now windows.entry.rows.now windows.entry.count windows.entry.cells.now) bodies.entry.count (length out.old) }
    ensures out_after { out.new ≡ run_written (lent_with tables.entry.records.now tables.entry.shapes.now windows.entry.rows.now windows.entry.count windows.entry.cells.now) (bodies_of bodies.entry.older bodies.entry.numbers.now bodies.entry.words.now bodies.entry.count) out.old }
{
    table_check::check_tables(tables)?;
    run_checked(tables, windows, bodies, out)
}
