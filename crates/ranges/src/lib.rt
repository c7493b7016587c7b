// The cells between coordinates, and going through them in the Rust's order: y, then x, then z.
#![tactic(auto)]

mod cells;

ghost use Rattle.std.specs.Prelude.{◌≡◌, ◌+◌, ltb};
ghost use Rattle.ranges.specs.Ranges.{span_of, cells_between, layers_between, on_from, place_of, next_of, start_of, trimmed};

pub use cells::{cell_holding, cell_under};
use window::Pos;

/// Cells of one axis: so many from the first on.
#[derive(Clone, Copy)]
pub struct Axis {
    pub first: i32,
    pub count: u32,
}

/// Cells of all three axes.
#[derive(Clone, Copy)]
pub struct Range {
    pub x: Axis,
    pub y: Axis,
    pub z: Axis,
}

/// A cell of a range, counted from its first on each axis.
#[derive(Clone, Copy)]
pub struct At {
    pub x: u32,
    pub y: u32,
    pub z: u32,
}

fn span(a: i32, b: i32) -> u32
    ensures { result ≡ span_of a b }
{
    let n = i64::from(b) - i64::from(a) + 1;
    if n < 0 {
        0
    } else if n < 4294967295 {
        n as u32
    } else {
        4294967295
    }
}

/// The cells from that of lo to that of hi, both included.
pub fn cells_between(lo: f64, hi: f64) -> Axis
    ensures { result ≡ cells_between lo hi }
{
    let first = wholes::cell(lo);
    let count = span(first, wholes::cell(hi));
    Axis { first, count }
}

/// The same with one cell more below.
pub fn layers_between(lo: f64, hi: f64) -> Axis
    ensures { result ≡ layers_between lo hi }
{
    let first = wholes::cell(lo) - 1;
    let count = span(first, wholes::cell(hi));
    Axis { first, count }
}

fn on(a: i32, n: u32) -> i32
    ensures { result ≡ on_from a n }
{
    let s = i64::from(a) + i64::from(n);
    if s <= 67108864 { s as i32 } else { 67108864 }
}

/// Where a cell of a range lies.
pub fn place(r: Range, t: At) -> Pos
    ensures { result ≡ place_of r t }
{
    Pos {
        x: on(r.x.first, t.x),
        y: on(r.y.first, t.y),
        z: on(r.z.first, t.z),
    }
}

// i + 1 < n, where i + 1 might not fit.
fn has_next(i: u32, n: u32) -> bool
    ensures { result ≡ ltb (i + 1) n }
{
    i < n && i + 1 < n
}

/// The cell after this one: z first, then x, then y.
#[tactic(auto, using(base::proofs::Cases::cases), unfolding(crate::specs::Ranges::next_of, base::specs::Choose::choose))]
pub fn next(r: Range, t: At) -> At
    ensures { result ≡ next_of r t }
{
    if has_next(t.z, r.z.count) {
        At { z: t.z + 1, ..t }
    } else if has_next(t.x, r.x.count) {
        At {
            x: t.x + 1,
            y: t.y,
            z: 0,
        }
    } else if t.y < r.y.count {
        At {
            x: 0,
            y: t.y + 1,
            z: 0,
        }
    } else {
        At { x: 0, y: t.y, z: 0 }
    }
}

/// The first cell of a range, or past its last layer where it has none.
#[tactic(auto, using(base::proofs::Cases::cases), unfolding(crate::specs::Ranges::start_of, base::specs::Choose::choose))]
pub fn start(r: Range) -> At
    ensures { result ≡ start_of r }
{
    let none = r.x.count == 0 || r.z.count == 0;
    At {
        x: 0,
        y: if none { r.y.count } else { 0 },
        z: 0,
    }
}

/// The same cells, with no layer where x or z has no cell: nested loops over it never turn without coming to a cell.
#[tactic(auto, using(base::proofs::Cases::cases), unfolding(crate::specs::Ranges::trimmed, base::specs::Choose::choose))]
pub fn trim(r: Range) -> Range
    ensures { result ≡ trimmed r }
{
    if r.x.count == 0 || r.z.count == 0 {
        let none = Axis { first: 0, count: 0 };
        return Range {
            x: none,
            y: none,
            z: none,
        };
    }
    r
}
