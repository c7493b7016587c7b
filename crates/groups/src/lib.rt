// The summary of a window: one word for each group of 4 by 4 by 4 cells (`group_words`), which tells whether collection may pass over it. The words
// stand behind those of cells and columns, in the one slice that a host lends.
#![tactic(auto)]

ghost use Rattle.std.specs.Prelude.{◌≡◌, true, ◌+◌, ◌<◌, ◌≤◌, get_or, set};
ghost use Rattle.base.specs.Loop.{stored};
ghost use Rattle.base.specs.Refusals.{verdict};
ghost use Rattle.window.specs.Window.{sizes_fit, index_at};
ghost use Rattle.groups.specs.Groups.{groups_on, group_count, group_index, group_at, cell_at, group_word};
ghost use Rattle.groups.specs.Summary.{summary_of, words_before, summed_words, has_summary, build_refusal, built, agrees, summary_refusal, set_refusal, after_set};
ghost use Rattle.groups.specs.Places.{layout_of, layout_seen, offset_in, place_in, is_in, set_at, placed_refusal, after_placed};

use base::Refusal;
use group_words::Group;
use tables::Tables;
use window::{Pos, Sizes, View, Window};

fn groups_on(size: u32) -> u32
    requires { size ≤ 64 }
    ensures { result ≡ groups_on size }
{
    size.div_ceil(4)
}

fn group_count(s: Sizes) -> u32
    requires { sizes_fit s ≡ true }
    ensures { result ≡ group_count s }
{
    groups_on(s.x) * groups_on(s.y) * groups_on(s.z)
}

fn words_before(s: Sizes) -> u32
    requires { sizes_fit s ≡ true }
    ensures { result ≡ words_before s }
{
    s.x * s.y * s.z + s.x * s.z
}

/// Where the words of groups stand among all that are lent, and how many groups there are along x and z.
#[derive(Clone, Copy)]
pub struct Layout {
    pub before: u32,
    pub across: u8,
    pub deep: u8,
}

/// The layout of a window of these sizes: none where they break their limit.
#[tactic(auto, using(base::proofs::Cases::cases), unfolding(crate::specs::Places::layout_of, base::specs::Choose::choose))]
pub fn layout_of(s: Sizes) -> Option<Layout>
    ensures { layout_seen result ≡ layout_of s }
{
    if !window_check::sizes_fit(s) {
        return None;
    }
    Some(Layout {
        before: words_before(s),
        across: groups_on(s.x) as u8,
        deep: groups_on(s.z) as u8,
    })
}

// Group number i, in the cells' order.
fn group_at(s: Sizes, i: u32) -> Group
    requires { sizes_fit s ≡ true }
    ensures { result ≡ group_at s i }
{
    let across = groups_on(s.x);
    let deep = groups_on(s.z);
    let row = i / across;
    Group {
        x: i % across,
        y: row / deep,
        z: row % deep,
    }
}

fn word_of(tables: Tables<'_>, view: View<'_>, i: u32) -> u32
    requires sizes_value { sizes_fit view.window.sizes ≡ true }
    requires i_bound { i < group_count view.window.sizes }
    ensures { result ≡ group_word tables.entry.records.now view.entry.words.now view.entry.window (group_at view.entry.window.sizes i) }
{
    group_words::group_word(tables, view, group_at(view.window.sizes, i))
}

/// How many words a host lends with a summary: those of cells, columns and groups; none where the sizes break their limit.
#[tactic(auto, using(base::proofs::Cases::cases), unfolding(crate::specs::Summary::summed_words, base::specs::Choose::choose))]
pub fn summed_words(s: Sizes) -> u32
    ensures { result ≡ summed_words s }
{
    if window_check::sizes_fit(s) {
        words_before(s) + group_count(s)
    } else {
        0
    }
}

/// Whether there are as many words behind cells and columns as the window has groups.
#[tactic(auto, using(base::proofs::Cases::cases), unfolding(crate::specs::Summary::has_summary, crate::specs::Summary::summed_words, base::specs::Choose::choose))]
pub fn has_summary(view: View<'_>) -> bool
    ensures { result ≡ has_summary view.entry.words.now view.entry.window }
{
    let sizes = view.window.sizes;
    window_check::sizes_fit(sizes) && view.words.len() == summed_words(sizes) as usize
}

// A word written at place i: dropped where that is not there.
fn put(words: &mut [u32], i: u32, x: u32)
    ensures { words.new ≡ set words.old i x }
{
    let i = i as usize;
    if i < words.len() {
        words[i] = x; // by `get_mut` tried: what it leaves in the slice is not told
    }
}

// The slice is written, so that it goes beside its window, and not as a view of both; and so in each function that writes.
fn build_in(tables: Tables<'_>, words: &mut [u32], w: Window)
    requires { sizes_fit w.sizes ≡ true }
    ensures { words.new ≡ stored words.old (words_before w.sizes) (summary_of tables.entry.records.now words.old w) }
{
    let at = words_before(w.sizes);
    for i in 0..group_count(w.sizes) {
        let word = word_of(tables, View { words, window: w }, i);
        put(words, at + i, word);
    }
}

/// The summary, built into its place: refused with `Room` where that is of the wrong length, and nothing is written.
#[tactic(auto, using(base::proofs::Cases::cases, crate::proofs::Sets::sizes_there), unfolding(crate::specs::Summary::build_refusal, crate::specs::Summary::built, base::specs::Choose::choose))]
pub fn build(tables: Tables<'_>, words: &mut [u32], w: Window) -> Result<(), Refusal>
    ensures value { verdict result ≡ build_refusal words.old w }
    ensures words_after { words.new ≡ built tables.entry.records.now words.old w }
{
    if !has_summary(View { words, window: w }) {
        return Err(Refusal::Room);
    }
    build_in(tables, words, w);
    Ok(())
}

fn word_at(words: &[u32], i: u32) -> u32
    ensures { result ≡ get_or words.now i 0 }
{
    words.get(i as usize).copied().unwrap_or(0)
}

#[tactic(auto, using(base::proofs::Every::each), unfolding(crate::specs::Summary::agrees))]
fn agrees_all(tables: Tables<'_>, view: View<'_>) -> bool
    requires { sizes_fit view.window.sizes ≡ true }
    ensures { result ≡ agrees tables.entry.records.now view.entry.words.now view.entry.window }
{
    let at = words_before(view.window.sizes);
    for i in 0..group_count(view.window.sizes) {
        if word_at(view.words, at + i) != word_of(tables, view, i) {
            return false;
        }
    }
    true
}

/// The check of a summary that was lent: refused with `Room` for a wrong length, with `Summary` for a word that disagrees with its cells.
#[tactic(auto, using(base::proofs::Cases::cases, crate::proofs::Sets::sizes_there), unfolding(crate::specs::Summary::summary_refusal, base::specs::Choose::choose))]
pub fn check_summary(tables: Tables<'_>, view: View<'_>) -> Result<(), Refusal>
    ensures { verdict result ≡ summary_refusal tables.entry.records.now view.entry.words.now view.entry.window }
{
    if !has_summary(view) {
        return Err(Refusal::Room);
    }
    if agrees_all(tables, view) {
        Ok(())
    } else {
        Err(Refusal::Summary)
    }
}

// How far c lies above the origin, where it lies within so many; else as many as that.
fn offset_in(c: i32, origin: i32, size: u32) -> u32
    ensures { result ≡ offset_in c origin size }
{
    let n = i64::from(c) - i64::from(origin);
    if 0 <= n && n < i64::from(size) {
        n as u32
    } else {
        size
    }
}

/// How far a cell lies from the origin on each axis; as far as the window's size where it lies outside.
#[derive(Clone, Copy)]
pub struct Place {
    pub x: u32,
    pub y: u32,
    pub z: u32,
}

/// Where the cell at p lies in the window.
pub fn place_in(w: Window, p: Pos) -> Place
    ensures { result ≡ place_in w p }
{
    Place {
        x: offset_in(p.x, w.origin.x, w.sizes.x),
        y: offset_in(p.y, w.origin.y, w.sizes.y),
        z: offset_in(p.z, w.origin.z, w.sizes.z),
    }
}

fn is_in(s: Sizes, t: Place) -> bool
    ensures { result ≡ is_in s t }
{
    t.x < s.x && t.z < s.z && t.y < s.y
}

fn cell_place(s: Sizes, t: Place) -> u32
    requires s_value { sizes_fit s ≡ true }
    requires t_value { is_in s t ≡ true }
    ensures { result ≡ index_at s t.x t.y t.z }
{
    (t.y * s.z + t.z) * s.x + t.x
}

fn group_place(s: Sizes, g: Group) -> u32
    requires s_value { sizes_fit s ≡ true }
    requires x_bound { g.x < 16 }
    requires y_bound { g.y < 16 }
    requires z_bound { g.z < 16 }
    ensures { result ≡ words_before s + group_index s g }
{
    let before = words_before(s);
    let across = groups_on(s.x);
    let deep = groups_on(s.z);
    before + ((g.y * deep + g.z) * across + g.x)
}

// One cell set, and the word of its group mended.
fn set_in(tables: Tables<'_>, words: &mut [u32], w: Window, t: Place, state: u32)
    requires sizes_value { sizes_fit w.sizes ≡ true }
    requires t_value { is_in w.sizes t ≡ true }
    ensures { words.new ≡ set_at tables.entry.records.now words.old w t state }
{
    put(words, cell_place(w.sizes, t), state);
    let g = Group {
        x: t.x / 4,
        y: t.y / 4,
        z: t.z / 4,
    };
    let word = group_words::group_word(tables, View { words, window: w }, g);
    put(words, group_place(w.sizes, g), word);
}

// The same over a summary that is there, for a place that lies in the window.
#[tactic(auto, using(base::proofs::Cases::cases, crate::proofs::Sets::sizes_there), unfolding(crate::specs::Places::placed_refusal, crate::specs::Places::after_placed, base::specs::Choose::choose))]
fn set_placed(
    tables: Tables<'_>,
    words: &mut [u32],
    w: Window,
    place: Place,
    state: u32,
) -> Result<(), Refusal>
    ensures value { verdict result ≡ placed_refusal words.old w place }
    ensures words_after { words.new ≡ after_placed tables.entry.records.now words.old w place state }
{
    if !has_summary(View { words, window: w }) {
        return Err(Refusal::Room);
    }
    if !is_in(w.sizes, place) {
        return Err(Refusal::OutsideWindow);
    }
    set_in(tables, words, w, place, state);
    Ok(())
}

/// One cell set, and the word of its group mended, over a summary that is there: refused with `Room` for a summary of the wrong length, with
/// `OutsideWindow` for a cell outside the window, and nothing is written.
pub fn set_cell(
    tables: Tables<'_>,
    words: &mut [u32],
    w: Window,
    p: Pos,
    state: u32,
) -> Result<(), Refusal>
    ensures value { verdict result ≡ set_refusal words.old w p }
    ensures words_after { words.new ≡ after_set tables.entry.records.now words.old w p state }
{
    set_placed(tables, words, w, place_in(w, p), state)
}

/// The same of a cell counted from the window's origin.
pub fn set_at(
    tables: Tables<'_>,
    words: &mut [u32],
    w: Window,
    place: Place,
    state: u32,
) -> Result<(), Refusal>
    ensures value { verdict result ≡ set_refusal words.old w (cell_at w place.x place.y place.z) }
    ensures words_after { words.new ≡ after_set tables.entry.records.now words.old w (cell_at w place.x place.y place.z) state }
{
    set_placed(tables, words, w, place, state)
}
