// Rows of the midnight run: windows and bodies stand one row behind the other in lent slices. Of a row that is not there whole, what there is of
// it. body.rt reads a body out of its row.
#![tactic(auto)]

mod body;

ghost use Rattle.std.specs.Prelude.{◌≡◌, ◌≤◌, take, drop};
ghost use Rattle.night_rows.specs.Rows.{row_of, window_width, word_width, window_of_row, window_at, row_at, row_seen};

pub use body::BodyRow;
use window::Window;

/// How many words a window has.
pub const WINDOW_WIDTH: usize = 10;

// How many numbers and words a body has.
pub(crate) const NUMBER_WIDTH: usize = 21;

pub(crate) const WORD_WIDTH: usize = 10;

// The words of an older caller's row, who names no cap; and the cap that such a row stands for.
pub(crate) const OLDER_WIDTH: usize = 9;

pub(crate) const OLDER_CAP: u32 = 128;

/// Windows that are lent: `count` rows of ten words, and the words of all of the windows.
#[derive(Clone, Copy)]
pub struct Windows<'a> {
    pub rows: &'a [u32],
    pub count: u32,
    pub cells: &'a [u32],
}

/// Bodies that are lent: `count` rows of 21 numbers and of ten words, or of nine where they are an older caller's.
#[derive(Clone, Copy)]
pub struct Bodies<'a> {
    pub older: bool,
    pub numbers: &'a [f64],
    pub words: &'a [u32],
    pub count: u32,
}

/// A window, and where its own words begin among those of all windows, and how many they are.
#[derive(Clone, Copy)]
pub struct WindowRow {
    pub window: Window,
    pub first: u32,
    pub count: u32,
}

/// A word, as it is.
pub fn wide(x: u32) -> usize
    ensures { result ≡ x }
{
    x as usize
}

/// So many from a place on, or what there is of them.
pub fn part_of<T>(all: &[T], at: usize, count: usize) -> &[T]
    ensures { result.now ≡ take count (drop at all.now) }
{
    let start = at.min(all.len());
    let length = count.min(all.len() - start);
    &all[start..start + length]
}

/// How many words a body has.
#[tactic(auto, using(base::proofs::Cases::cases), unfolding(crate::specs::Rows::word_width, base::specs::Choose::choose))]
pub(crate) fn word_width(older: bool) -> usize
    ensures value { result ≡ word_width older }
    ensures most { result ≤ 10 }
{
    if older { OLDER_WIDTH } else { WORD_WIDTH }
}

// The window that a row's words are.
fn window_of_row(words: &[u32]) -> WindowRow
    ensures { result ≡ window_of_row words.now }
{
    let word = |k: u32| tables::word(words, 0, k);
    WindowRow {
        window: lent_words::window_from(
            word(0),
            word(1),
            word(2),
            word(3),
            word(4),
            word(5),
            word(6),
            word(7),
            0,
        ),
        first: word(8),
        count: word(9),
    }
}

impl<'a> Windows<'a> {
    /// The words of row j.
    pub fn row(self, j: u32) -> &'a [u32]
        ensures { result.now ≡ row_of window_width self.entry.rows.now j }
    {
        part_of(self.rows, wide(j) * WINDOW_WIDTH, WINDOW_WIDTH)
    }

    /// The window that row j is.
    #[tactic(auto, unfolding(crate::specs::Rows::window_at))]
    pub fn at(self, j: u32) -> WindowRow
        ensures { result ≡ window_at self.entry.rows.now j }
    {
        window_of_row(self.row(j))
    }
}

impl<'a> Bodies<'a> {
    /// Row i.
    pub fn row(self, i: u32) -> BodyRow<'a>
        ensures { row_seen result ≡ row_at self.entry.older self.entry.numbers.now self.entry.words.now i }
    {
        let width = word_width(self.older);
        BodyRow {
            older: self.older,
            numbers: part_of(self.numbers, wide(i) * NUMBER_WIDTH, NUMBER_WIDTH),
            words: part_of(self.words, wide(i) * width, width),
        }
    }
}
