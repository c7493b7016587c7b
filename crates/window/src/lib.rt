// The window: a host lends words, of cells and of columns, and says by numbers where they lie. The one look-up; its check is in `window_check`.
#![tactic(auto)]

mod numbers;

ghost use Rattle.std.specs.Prelude.{◌≡◌, ◌||◌, ◌<◌, ◌+ℤ◌, ◌-ℤ◌};
ghost use Rattle.std.specs.Int.Signed.{lt_z};
ghost use Rattle.window.specs.Look.{look_at, block_asked, stepped};
ghost use Rattle.window.specs.Views.{look_in};
ghost use Rattle.window.specs.Numbers.{with_air};
ghost use Rattle.window.specs.Offsets.{is_ahead, look_down, look_within};

use base::Refusal;
pub use numbers::window_of;

/// A cell of the world.
#[derive(Clone, Copy, Debug, PartialEq, Eq)]
pub struct Pos {
    pub x: i32,
    pub y: i32,
    pub z: i32,
}

#[derive(Clone, Copy, Debug, PartialEq, Eq)]
pub struct Sizes {
    pub x: u32,
    pub y: u32,
    pub z: u32,
}

// The numbers of a window: where it lies, the world's lowest and highest cell, and the state that the sky and the void read. Its lent words go
// beside it: the cells, then one for each column. Sizes are u32 so that any number a host hands in can be checked.
#[derive(Clone, Copy)]
pub struct Window {
    pub origin: Pos,
    pub sizes: Sizes,
    pub lowest: i32,
    pub highest: i32,
    pub air: u32,
}

// A way from a cell to one beside it.
#[derive(Clone, Copy, Debug, PartialEq, Eq)]
pub struct CellStep {
    pub x: i8,
    pub y: i8,
    pub z: i8,
}

/// The window as one view: the words that a host lends, of cells and then of columns, and the numbers that say where they lie.
#[derive(Clone, Copy)]
pub struct View<'a> {
    pub words: &'a [u32],
    pub window: Window,
}

impl<'a> View<'a> {
    /// What lies in the cell at p: a state, or nothing where its column is not loaded. Refused where the view does not hold the cell.
    pub fn look(self, p: Pos) -> Result<Option<u32>, Refusal>
        ensures { block_asked result ≡ look_in self.entry p }
    {
        self.look_by(p, CellStep { x: 0, y: 0, z: 0 })
    }

    /// The same of the cell a step away from p.
    pub fn look_by(self, p: Pos, d: CellStep) -> Result<Option<u32>, Refusal>
        ensures { block_asked result ≡ look_in self.entry (stepped p d) }
    {
        look_by(self.words, self.window, p, d)
    }

    /// The same words under another air state: in a step it is that of the rules.
    pub fn with_air(self, air: u32) -> View<'a>
        ensures words { result.words ≡ self.entry.words }
        ensures window { result.window ≡ with_air self.entry.window air }
    {
        View {
            words: self.words,
            window: self.window.with_air(air),
        }
    }
}

// How far x and d together are above o, in i64, where no i32 wraps.
fn offset(x: i32, d: i8, o: i32) -> i64
    ensures { result ≡ x +ℤ d -ℤ o }
{
    (x as i64) + (d as i64) - (o as i64)
}

// Whether an offset is one of so many from the origin on.
fn is_ahead(n: i64, size: u32) -> bool
    ensures { result ≡ is_ahead n size }
{
    (0 <= n) & (n < size as i64)
}

// Whether y and d together lie above or below the world.
fn is_void(y: i32, d: i8, lowest: i32, highest: i32) -> bool
    ensures { result ≡ lt_z (y +ℤ d) lowest || lt_z highest (y +ℤ d) }
{
    let at = (y as i64) + (d as i64);
    (at < lowest as i64) | ((highest as i64) < at)
}

// The column decides, then the world's ends, then the window's height. The column's word stands where that of a cell above the highest would, so
// that where it was lent the cells below it were. Below 2^32 columns no place wraps.
fn look_down(
    words: &[u32],
    layer: u64,
    at: u64,
    height: u32,
    air: u32,
    void: bool,
    y: i64,
) -> Result<Option<u32>, Refusal>
    requires { at < layer }
    ensures { block_asked result ≡ look_down words.now layer at height air void y }
{
    if layer < 4294967296 {
        let i = ((height as u64) * layer + at) as usize;
        if i < words.len() {
            if words[i] == 0 {
                return Ok(None);
            }
            if void {
                return Ok(Some(air));
            }
            if is_ahead(y, height) {
                let k = ((y as u64) * layer + at) as usize;
                return Ok(Some(words[k]));
            }
            return Err(Refusal::OutsideWindow); // beyond on y
        }
        return Err(Refusal::OutsideWindow); // no word was lent
    }
    Err(Refusal::OutsideWindow) // too many columns
}

// The cell at three offsets.
fn look_in(
    words: &[u32],
    s: Sizes,
    air: u32,
    void: bool,
    x: i64,
    y: i64,
    z: i64,
) -> Result<Option<u32>, Refusal>
    ensures { block_asked result ≡ look_within words.now s air void x y z }
{
    if is_ahead(x, s.x) {
        if is_ahead(z, s.z) {
            let sx = s.x as u64;
            let at = (z as u64) * sx + (x as u64);
            return look_down(words, sx * (s.z as u64), at, s.y, air, void, y);
        }
        return Err(Refusal::OutsideWindow); // beyond on z
    }
    Err(Refusal::OutsideWindow) // beyond on x
}

// The look-up of the cell a step away from p, over slice and numbers.
fn look_by(cells: &[u32], w: Window, p: Pos, d: CellStep) -> Result<Option<u32>, Refusal>
    ensures { block_asked result ≡ look_at cells.now w (stepped p d) }
{
    let x = offset(p.x, d.x, w.origin.x);
    let y = offset(p.y, d.y, w.origin.y);
    let z = offset(p.z, d.z, w.origin.z);
    let void = is_void(p.y, d.y, w.lowest, w.highest);
    look_in(cells, w.sizes, w.air, void, x, y, z)
}
