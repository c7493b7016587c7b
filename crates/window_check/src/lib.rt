// The check of a window that a host hands in (2): its sizes, its coordinates, how many words were lent, and the words of the columns.
#![tactic(auto)]

ghost use Rattle.std.specs.Prelude.{◌≡◌};
ghost use Rattle.base.specs.Refusals.{verdict};
ghost use Rattle.window.specs.Window.{size_is_fit, sizes_fit, coordinate_fits, origin_fits, heights_fit, column_fits, columns_fit, window_refusal};

use base::Refusal;
use window::{Pos, Sizes, View, Window};

fn size_fits(n: u32) -> bool
    ensures { result ≡ size_is_fit n }
{
    (1 <= n) & (n <= 64)
}

// Sizes are 1 to 64 each.
pub fn sizes_fit(s: Sizes) -> bool
    ensures { result ≡ sizes_fit s }
{
    size_fits(s.x) & size_fits(s.y) & size_fits(s.z)
}

fn coordinate_fits(c: i32) -> bool
    ensures { result ≡ coordinate_fits c }
{
    (-33554432 <= c) & (c <= 33554432)
}

fn origin_fits(o: Pos) -> bool
    ensures { result ≡ origin_fits o }
{
    coordinate_fits(o.x) & coordinate_fits(o.y) & coordinate_fits(o.z)
}

fn heights_fit(w: Window) -> bool
    ensures { result ≡ heights_fit w.lowest w.highest }
{
    coordinate_fits(w.lowest) & coordinate_fits(w.highest) & (w.lowest <= w.highest)
}

// A column's word is 1 or 0; one that is not there is 0.
fn column_fits(words: &[u32], i: usize) -> bool
    ensures { result ≡ column_fits words.now i }
{
    if i < words.len() {
        return words[i] <= 1;
    }
    true
}

// So many words from the first on are 1 or 0.
#[tactic(auto, using(base::proofs::Every::each), unfolding(window::specs::Window::columns_fit))]
fn columns_fit(words: &[u32], first: u32, count: u32) -> bool
    ensures { result ≡ columns_fit words.now first count }
{
    for k in 0..count {
        if !column_fits(words, first as usize + k as usize) {
            return false;
        }
    }
    true
}

/// The check of a window that a host hands in.
#[tactic(auto, using(base::proofs::Cases::cases), unfolding(window::specs::Window::window_refusal, window::specs::Window::window_fits, base::specs::Choose::choose))]
pub fn check_window(view: View<'_>) -> Result<(), Refusal>
    ensures { verdict result ≡ window_refusal view.entry.words.now view.entry.window }
{
    let w = view.window;
    if sizes_fit(w.sizes) && origin_fits(w.origin) && heights_fit(w) {
        let count = w.sizes.x * w.sizes.y * w.sizes.z;
        let columns = w.sizes.x * w.sizes.z;
        if view.words.len() == (count + columns) as usize
            && columns_fit(view.words, count, columns)
        {
            return Ok(());
        }
    }
    Err(Refusal::Window)
}
