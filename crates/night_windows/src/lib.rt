// Windows of the midnight run: a window's own words, of all that are lent, and their check, once for all bodies.
#![tactic(auto)]

ghost use Rattle.std.specs.Prelude.{◌≡◌, map};
ghost use Rattle.base.specs.Loop.{listed};
ghost use Rattle.base.specs.Refusals.{verdict};
ghost use Rattle.night_windows.specs.Windows.{cells_in, front, last_in, is_summed, own_refusal, refusal_at, refusal_within, verdicts, step_words};

use base::Refusal;
use night_rows::{WINDOW_WIDTH, WindowRow, Windows, part_of};
use tables::Tables;
use window::View;

/// A window's own words, of all that are lent.
pub fn cells_in(cells: &[u32], row: WindowRow) -> &[u32]
    ensures { result.now ≡ cells_in cells.now row }
{
    part_of(cells, row.first as usize, row.count as usize)
}

/// All but the last of a window's own words: cells, columns and summary, where it has one.
pub fn front(own: &[u32]) -> &[u32]
    ensures { result.now ≡ front own.now }
{
    &own[..own.len().saturating_sub(1)]
}

/// The last of them, 0 where there is none: the air state that its summary is of.
pub fn last_in(own: &[u32]) -> u32
    ensures { result ≡ last_in own.now }
{
    own.last().copied().unwrap_or(0)
}

/// Whether a window's own words have a summary among them.
#[tactic(auto, unfolding(crate::specs::Windows::is_summed))]
pub fn is_summed(view: View<'_>) -> bool
    ensures { result ≡ is_summed view.entry.words.now view.entry.window }
{
    groups::has_summary(View {
        words: front(view.words),
        window: view.window,
    })
}

// `Window` of cells and columns; or `Summary`, where there is one.
#[tactic(auto, using(base::proofs::Cases::cases, crate::proofs::Checks::window_alone), unfolding(crate::specs::Windows::own_refusal, base::specs::Choose::choose))]
fn check_own(tables: Tables<'_>, view: View<'_>) -> Result<(), Refusal>
    ensures { verdict result ≡ own_refusal tables.entry.records.now view.entry.words.now view.entry.window }
{
    if !is_summed(view) {
        return window_check::check_window(view);
    }
    window_check::check_window(summary::plain(view))?;
    let air = last_in(view.words);
    groups::check_summary(
        tables,
        View {
            words: front(view.words),
            window: view.window.with_air(air),
        },
    )
}

// `Window` also where the row, or one of the window's words, is not there.
#[tactic(auto, using(base::proofs::Cases::cases), unfolding(crate::specs::Windows::refusal_at, base::specs::Choose::choose))]
fn check_at(tables: Tables<'_>, windows: Windows<'_>, j: u32) -> Result<(), Refusal>
    ensures { verdict result ≡ refusal_at tables.entry.records.now windows.entry.rows.now windows.entry.cells.now j }
{
    if windows.row(j).len() != WINDOW_WIDTH {
        return Err(Refusal::Window);
    }
    let row = windows.at(j);
    let end = row.first as usize + row.count as usize;
    if end > windows.cells.len() {
        return Err(Refusal::Window);
    }
    let view = View {
        words: cells_in(windows.cells, row),
        window: row.window,
    };
    check_own(tables, view)
}

// The same for a window that is one of so many; `Window` beyond them.
#[tactic(auto, using(base::proofs::Cases::cases), unfolding(crate::specs::Windows::refusal_within, base::specs::Choose::choose))]
fn check_within(tables: Tables<'_>, windows: Windows<'_>, j: u32) -> Result<(), Refusal>
    ensures { verdict result ≡ refusal_within tables.entry.records.now windows.entry.rows.now windows.entry.cells.now windows.entry.count j }
{
    if j >= windows.count {
        return Err(Refusal::Window);
    }
    check_at(tables, windows, j)
}

/// Each window checked, once for all bodies.
pub fn check_all(tables: Tables<'_>, windows: Windows<'_>) -> [Result<(), Refusal>; 16]
    ensures { verdicts result ≡ listed (refusal_within tables.entry.records.now windows.entry.rows.now windows.entry.cells.now windows.entry.count) 16 0 }
{
    let mut checked = [Err(Refusal::Window); 16];
    for j in 0..16 {
        checked[j as usize] = check_within(tables, windows, j);
    }
    checked
}

/// The words that a body of this air state is stepped over.
#[tactic(auto, using(base::proofs::Cases::cases), unfolding(crate::specs::Windows::step_words, base::specs::Choose::choose))]
pub fn step_words(view: View<'_>, air: u32) -> &[u32]
    ensures { result.now ≡ step_words view.entry.words.now view.entry.window air }
{
    if !is_summed(view) {
        return view.words;
    }
    if last_in(view.words) == air {
        front(view.words)
    } else {
        summary::plain(view).words
    }
}
