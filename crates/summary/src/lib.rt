// The summary of a window as a host calls it: its check, building it, and setting one cell, with all their refusals. The host lends the words of
// cells, of columns and of groups as one slice.
#![tactic(auto)]

ghost use Rattle.std.specs.Prelude.{◌≡◌};
ghost use Rattle.base.specs.Refusals.{verdict};
ghost use Rattle.summary.specs.Calls.{plain_words, plain_refusal, summed_refusal, build_entry, built_entry, set_entry, after_set_entry};

use base::Refusal;
use tables::Tables;
use window::{Pos, View, Window};

/// The words of cells and columns, without those of a summary.
pub fn plain(view: View<'_>) -> View<'_>
    ensures words { result.words.now ≡ plain_words view.entry.words.now view.entry.window }
    ensures window { result.window ≡ view.entry.window }
{
    let words = match groups::layout_of(view.window.sizes) {
        Some(layout) if (layout.before as usize) < view.words.len() => {
            &view.words[..layout.before as usize]
        }
        _ => view.words,
    };
    View { words, ..view }
}

// Refused with `Tables`, with `Window`, or with `Number` for the window's air state.
fn check_plain(tables: Tables<'_>, view: View<'_>) -> Result<(), Refusal>
    ensures { verdict result ≡ plain_refusal tables.entry.records.now tables.entry.shapes.now view.entry.words.now view.entry.window }
{
    lent::check_direct(tables, plain(view))
}

/// For hosts: the check of what is lent with a summary. Refused with `Tables`, `Window` or `Number`; then with `Room` or `Summary`.
#[tactic(auto, using(base::proofs::Cases::cases), unfolding(crate::specs::Calls::summed_refusal, base::specs::Choose::choose))]
pub fn check_summed(tables: Tables<'_>, view: View<'_>) -> Result<(), Refusal>
    ensures { verdict result ≡ summed_refusal tables.entry.records.now tables.entry.shapes.now view.entry.words.now view.entry.window }
{
    check_plain(tables, view)?;
    groups::check_summary(tables, view)
}

/// For hosts: the summary is built behind cells and columns. Refused with `Tables`, `Window`, `Number` or `Room`, and nothing is written. The slice
/// is written, so that it goes beside its window, and not as a view of both.
#[tactic(auto, using(base::proofs::Cases::cases), unfolding(crate::specs::Calls::build_entry, crate::specs::Calls::built_entry, base::specs::Choose::choose))]
pub fn build_summary(tables: Tables<'_>, words: &mut [u32], w: Window) -> Result<(), Refusal>
    ensures value { verdict result ≡ build_entry tables.entry.records.now tables.entry.shapes.now words.old w }
    ensures words_after { words.new ≡ built_entry tables.entry.records.now tables.entry.shapes.now words.old w }
{
    check_plain(tables, View { words, window: w })?;
    groups::build(tables, words, w)
}

/// For hosts: one cell is set, and the word of its group mended. Refused with `Tables`, `Window`, `Number`, `Room`, `Summary` or `OutsideWindow`, and
/// nothing is written.
#[tactic(auto, using(base::proofs::Cases::cases), unfolding(crate::specs::Calls::set_entry, crate::specs::Calls::after_set_entry, base::specs::Choose::choose))]
pub fn set_block(
    tables: Tables<'_>,
    words: &mut [u32],
    w: Window,
    p: Pos,
    state: u32,
) -> Result<(), Refusal>
    ensures value { verdict result ≡ set_entry tables.entry.records.now tables.entry.shapes.now words.old w p }
    ensures words_after { words.new ≡ after_set_entry tables.entry.records.now tables.entry.shapes.now words.old w p state }
{
    check_summed(tables, View { words, window: w })?;
    groups::set_cell(tables, words, w, p, state)
}
