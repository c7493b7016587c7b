// Which layers of a range a collection passes over, by the summary behind a window's words.
#![tactic(auto)]

ghost use Rattle.std.specs.Prelude.{◌≡◌, ◌&&◌, ◌+◌, ◌*◌, ◌-◌, ◌/◌, ◌%◌, ◌≤◌, min, eqb, get_or};
ghost use Rattle.passing.specs.Passing.{spans, reach_seen, reach_in, row_marked, all_marked, stretch_at};

use groups::Place;
use ranges::{At, Range};
use window::{Sizes, View};

/// The groups of a range's columns: the first on x and z, and how many from there on; where the words of groups stand, and how many groups a row and
/// a layer of them has.
#[derive(Clone, Copy)]
pub struct Reach {
    pub before: u32,
    pub row: u8,
    pub layer: u8,
    pub x: u8,
    pub z: u8,
    pub across: u8,
    pub deep: u8,
}

/// Layers of a range up to one, and how many lines of each a collection comes to.
#[derive(Clone, Copy)]
pub struct Stretch {
    pub until: u64,
    pub lines: u32,
}

fn spans_it(s: Sizes, a: Place, b: Place) -> bool
    ensures { result ≡ spans s a b }
{
    a.x < s.x && b.x < s.x && a.z < s.z && b.z < s.z
}

// How many groups there are from that of a to that of b.
fn groups_between(a: u32, b: u32) -> u32
    ensures { result ≡ b / 4 + 1 - a / 4 }
{
    (b / 4 + 1).saturating_sub(a / 4)
}

/// Worked out once for a move: none where a column of the range lies outside the window, or no word of a summary is lent.
#[tactic(auto, using(base::proofs::Cases::cases), unfolding(crate::specs::Passing::reach_in, crate::specs::Passing::reach_of, base::specs::Choose::choose))]
pub fn reach_in(view: View<'_>, r: Range) -> Option<Reach>
    ensures { reach_seen result ≡ reach_in view.entry.words.now view.entry.window r }
{
    let w = view.window;
    let layout = groups::layout_of(w.sizes)?;
    if view.words.len() <= layout.before as usize {
        return None;
    }
    let end = At {
        x: r.x.count.saturating_sub(1),
        y: 0,
        z: r.z.count.saturating_sub(1),
    };
    let a = groups::place_in(w, ranges::place(r, At { x: 0, y: 0, z: 0 }));
    let b = groups::place_in(w, ranges::place(r, end));
    if !spans_it(w.sizes, a, b) {
        return None;
    }
    Some(Reach {
        before: layout.before,
        row: layout.across,
        layer: layout.deep,
        x: (a.x / 4) as u8,
        z: (a.z / 4) as u8,
        across: groups_between(a.x, b.x) as u8,
        deep: groups_between(a.z, b.z) as u8,
    })
}

// A word that is there, and is 0.
fn is_clear(words: &[u32], i: usize) -> bool
    ensures { result ≡ eqb (get_or words.now i 1) 0 }
{
    i < words.len() && words[i] == 0
}

// So many words from a place on are there, and are 0.
#[tactic(auto, using(base::proofs::Every::each), unfolding(crate::specs::Passing::row_marked))]
fn is_marked(words: &[u32], at: usize, n: u8) -> bool
    requires { at ≤ 1152921504606846976 }
    ensures { result ≡ row_marked words.now at n }
{
    for i in 0..n as usize {
        if !is_clear(words, at + i) {
            return false;
        }
    }
    true
}

// Where the words of a row of groups begin: row j of the layer at height y above the origin.
fn row_at(k: Reach, y: u32, j: u8) -> usize
    ensures value { result ≡ k.before + k.x + (y / 4 * k.layer + k.z + j) * k.row }
    ensures upper_bound { result ≤ 1152921504606846976 }
{
    let up = (y / 4) as usize;
    let line = up * k.layer as usize + k.z as usize + j as usize;
    k.before as usize + k.x as usize + line * k.row as usize
}

// Every group that the layer has, at height y above the origin.
#[tactic(auto, using(base::proofs::Every::each), unfolding(crate::specs::Passing::all_marked))]
fn is_all_marked(words: &[u32], k: Reach, y: u32) -> bool
    ensures { result ≡ all_marked words.now (reach_seen (Some k)) y }
{
    for j in 0..k.deep {
        if !is_marked(words, row_at(k, y, j), k.across) {
            return false;
        }
    }
    true
}

// For how many layers from this height on the groups are the same: to the end of these, or of the window.
fn alike(height: u32, y: u32) -> u32
    ensures { result ≡ min (4 - y % 4) (height - y) }
{
    let left = 4 - y % 4;
    height.saturating_sub(y).min(left)
}

/// What is known of layer y and those after it: how many lines of each a collection comes to, none where it passes over it, and up to which layer.
/// Four layers have the same groups, which are asked for once: what is known of the layers up to one is taken in, and handed on.
#[tactic(auto, using(base::proofs::Cases::cases), unfolding(crate::specs::Passing::stretch_at, crate::specs::Passing::passes_by, base::specs::Choose::choose))]
pub fn lines_at(view: View<'_>, r: Range, reach: Option<Reach>, y: u32, last: Stretch) -> Stretch
    ensures { result ≡ stretch_at view.entry.words.now view.entry.window r (reach_seen reach) y last }
{
    if (y as u64) < last.until {
        return last;
    }
    let w = view.window;
    match reach {
        None => Stretch {
            until: 0x1_0000_0000,
            lines: r.x.count,
        },
        Some(k) => {
            let t = groups::place_in(w, ranges::place(r, At { x: 0, y, z: 0 }));
            if t.y < w.sizes.y {
                let until = y as u64 + alike(w.sizes.y, t.y) as u64;
                let passed = is_all_marked(view.words, k, t.y);
                let lines = if passed { 0 } else { r.x.count };
                return Stretch { until, lines };
            }
            Stretch {
                until: 0,
                lines: r.x.count,
            }
        }
    }
}
