// The word of a group: 0 where collection may pass over its 4 by 4 by 4 cells. All of them that lie in the window are looked up.
#![tactic(auto)]

ghost use Rattle.std.specs.Prelude.{◌≡◌, ◌+◌, ◌<◌, ◌≤◌, pos};
ghost use Rattle.window.specs.Views.{look_in};
ghost use Rattle.group_words.specs.Groups.{cut, cell_at, is_empty_state, is_empty, is_empty_line, is_empty_layer, is_group, word_of_group};

use tables::Tables;
use window::{CellStep, View};

/// A group, counted from the origin on each axis.
#[derive(Clone, Copy)]
pub struct Group {
    pub x: u32,
    pub y: u32,
    pub z: u32,
}

// A registered state that connects as nothing and has no boxes.
#[tactic(auto, unfolding(crate::specs::Groups::is_empty_state, tables::specs::Tables::is_registered))]
fn is_empty_state(tables: Tables<'_>, id: u32) -> bool
    ensures { result ≡ is_empty_state tables.entry.records.now id }
{
    let h = tables.head(id);
    h.registered && h.kind == 0 && h.count == 0
}

// A number as one step of a look-up takes it.
fn small(n: u32) -> i8
    requires { n < 128 }
    ensures { result ≡ pos n }
{
    n as i8
}

// Whether the cell so far from the origin is such a state.
fn is_empty(tables: Tables<'_>, view: View<'_>, x: u32, y: u32, z: u32) -> bool
    requires x_bound { x < 128 }
    requires y_bound { y < 128 }
    requires z_bound { z < 128 }
    ensures { result ≡ is_empty tables.entry.records.now (look_in view.entry (cell_at view.entry.window x y z)) }
{
    let step = CellStep {
        x: small(x),
        y: small(y),
        z: small(z),
    };
    match view.look_by(view.window.origin, step) {
        Ok(Some(id)) => is_empty_state(tables, id),
        Ok(None) | Err(_) => false,
    }
}

// So many cells along x.
#[tactic(auto, using(base::proofs::Every::each), unfolding(crate::specs::Groups::is_empty_line))]
fn is_empty_line(tables: Tables<'_>, view: View<'_>, n: u32, x: u32, y: u32, z: u32) -> bool
    requires n_bound { x + n ≤ 128 }
    requires y_bound { y < 128 }
    requires z_bound { z < 128 }
    ensures { result ≡ is_empty_line tables.entry.records.now view.entry.words.now view.entry.window n x y z }
{
    for k in 0..n {
        if !is_empty(tables, view, x + k, y, z) {
            return false;
        }
    }
    true
}

// How many of a group's four cells along an axis lie in the window.
fn cut_of(size: u32, g: u32) -> u32
    requires { g < 16 }
    ensures { result ≡ cut size g }
{
    size.saturating_sub(g * 4).min(4)
}

// The cells of a group in one layer.
#[tactic(auto, using(base::proofs::Every::each), unfolding(crate::specs::Groups::is_empty_layer))]
fn is_empty_layer(tables: Tables<'_>, view: View<'_>, g: Group, y: u32) -> bool
    requires x_bound { g.x < 16 }
    requires z_bound { g.z < 16 }
    requires y_bound { y < 128 }
    ensures { result ≡ is_empty_layer tables.entry.records.now view.entry.words.now view.entry.window g y }
{
    let sizes = view.window.sizes;
    let across = cut_of(sizes.x, g.x);
    for k in 0..cut_of(sizes.z, g.z) {
        if !is_empty_line(tables, view, across, g.x * 4, y, g.z * 4 + k) {
            return false;
        }
    }
    true
}

// Whether a window can have it.
fn is_group(g: Group) -> bool
    ensures { result ≡ is_group g }
{
    g.x < 16 && g.y < 16 && g.z < 16
}

/// The word of a group: all its cells in the window are looked up. One that no window has is not known to be empty.
#[tactic(auto, using(base::proofs::Every::each, base::proofs::Cases::cases), unfolding(crate::specs::Groups::word_of_group, crate::specs::Groups::is_empty_group, base::specs::Choose::choose))]
pub fn group_word(tables: Tables<'_>, view: View<'_>, g: Group) -> u32
    ensures { result ≡ word_of_group tables.entry.records.now view.entry.words.now view.entry.window g }
{
    if !is_group(g) {
        return 1; // beyond every window
    }
    for k in 0..cut_of(view.window.sizes.y, g.y) {
        if !is_empty_layer(tables, view, g, g.y * 4 + k) {
            return 1;
        }
    }
    0
}
