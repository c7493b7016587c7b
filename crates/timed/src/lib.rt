// What bench/ asks for, and no host: of collection, the move through a window as a step makes it, of which one number is handed back; of
// connections, the state of one block; and of a summary, one cell that is set, with nothing looked at but its group.
#![tactic(auto)]

ghost use Rattle.std.specs.Prelude.{◌≡◌, not, eqb};
ghost use Rattle.boxes.specs.Boxes.{vec};
ghost use Rattle.sweeps.specs.Lists.{cap_of};
ghost use Rattle.window.specs.Look.{look_at};
ghost use Rattle.passing.specs.Passing.{passes};
ghost use Rattle.window.specs.Numbers.{window_of};
ghost use Rattle.ranges.specs.Cells.{cell_holding};
ghost use Rattle.connect.specs.Answers.{connected_entry};
ghost use Rattle.through.specs.Through.{move_aabb_past};
ghost use Rattle.groups.specs.Groups.{cell_at};
ghost use Rattle.groups.specs.Summary.{set_refusal, after_set};
ghost use Rattle.timed.specs.Ways.{box_between, along_of, way_of};

use boxes::{Aabb, Vec3};
use groups::Place;
use sweeps::Request;
use tables::Tables;
use window::View;

#[tactic(auto, using(base::proofs::Cases::cases), unfolding(crate::specs::Ways::along_of, base::specs::Choose::choose))]
fn along(v: Vec3, k: u32) -> f64
    ensures { result ≡ along_of k v }
{
    match k {
        0 => v.x,
        1 => v.y,
        _ => v.z,
    }
}

// The way that a box goes along axis k (x, y, z), over tables and a window that were checked before: 0.0 where the move is refused.
#[unsafe(no_mangle)]
pub extern "C" fn boltjuniper_way(
    records: &[u32],
    shapes: &[f32],
    cells: &[u32],
    ox: i32,
    oy: i32,
    oz: i32,
    sx: u32,
    sy: u32,
    sz: u32,
    lowest: i32,
    highest: i32,
    air: u32,
    x0: f64,
    y0: f64,
    z0: f64,
    x1: f64,
    y1: f64,
    z1: f64,
    dx: f64,
    dy: f64,
    dz: f64,
    step: f64,
    grounded: u32,
    k: u32,
) -> f64
    ensures { result ≡ way_of k (move_aabb_past (cap_of 0) (passes cells.now (window_of ox oy oz sx sy sz lowest highest air)) (look_at cells.now (window_of ox oy oz sx sy sz lowest highest air)) records.now shapes.now (box_between x0 y0 z0 x1 y1 z1) (vec dx dy dz) step (not (eqb grounded 0))) }
{
    let tables = Tables { records, shapes };
    let view = View {
        words: cells,
        window: window::window_of(ox, oy, oz, sx, sy, sz, lowest, highest, air),
    };
    let q = Request {
        aabb: Aabb::new(Vec3::new(x0, y0, z0), Vec3::new(x1, y1, z1)),
        delta: Vec3::new(dx, dy, dz),
        step,
        on_ground: grounded != 0,
    };
    match through::move_through(0, tables, view, q) {
        Err(_) => 0.0,
        Ok(m) => along(m.moved, k),
    }
}

// The state that a block at a point comes to beside its neighbours: 0 where the call is refused.
#[unsafe(no_mangle)]
pub extern "C" fn boltjuniper_connected(
    records: &[u32],
    shapes: &[f32],
    cells: &[u32],
    ox: i32,
    oy: i32,
    oz: i32,
    sx: u32,
    sy: u32,
    sz: u32,
    lowest: i32,
    highest: i32,
    air: u32,
    x: f64,
    y: f64,
    z: f64,
    state: u32,
) -> u32
    ensures { result ≡ (connected_entry records.now shapes.now cells.now (window_of ox oy oz sx sy sz lowest highest air) (cell_holding (vec x y z)) state).state }
{
    let tables = Tables { records, shapes };
    let view = View {
        words: cells,
        window: window::window_of(ox, oy, oz, sx, sy, sz, lowest, highest, air),
    };
    let p = ranges::cell_holding(Vec3 { x, y, z });
    connect::connected_state_at(tables, view, p, state).unwrap_or(0)
}

// The cell at x, y, z, counted from the origin, becomes this state, and the word of its group is mended: 0; or 11 for words without a summary, then 5 for
// a cell outside the window, and nothing is written.
#[unsafe(no_mangle)]
pub extern "C" fn boltjuniper_set_at(
    records: &[u32],
    cells: &mut [u32],
    ox: i32,
    oy: i32,
    oz: i32,
    sx: u32,
    sy: u32,
    sz: u32,
    lowest: i32,
    highest: i32,
    air: u32,
    x: u32,
    y: u32,
    z: u32,
    state: u32,
) -> u32
    ensures value { result ≡ set_refusal cells.old (window_of ox oy oz sx sy sz lowest highest air) (cell_at (window_of ox oy oz sx sy sz lowest highest air) x y z) }
    ensures cells_after { cells.new ≡ after_set records.now cells.old (window_of ox oy oz sx sy sz lowest highest air) (cell_at (window_of ox oy oz sx sy sz lowest highest air) x y z) state }
{
    let tables = Tables {
        records,
        shapes: &[],
    };
    let w = window::window_of(ox, oy, oz, sx, sy, sz, lowest, highest, air);
    base::code(groups::set_at(tables, cells, w, Place { x, y, z }, state))
}
