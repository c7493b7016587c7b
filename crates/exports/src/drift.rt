// Currents, in lent numbers.
ghost use Rattle.std.specs.Prelude.{◌≡◌};
ghost use Rattle.boxes.specs.Boxes.{vec};
ghost use Rattle.window.specs.Look.{look_at};
ghost use Rattle.window.specs.Numbers.{window_of};
ghost use Rattle.lent_calls.specs.Currents.{current_at, current_refusal, current_written};

use boxes::Vec3;
use tables::Tables;
use window::View;

// What the currents add to the velocity of an item at the feet x, y, z, to be timed alone: over tables and a window that were checked before,
// and any numbers. It writes four numbers, each where `out` has its place, and returns 0, or writes nothing and returns 5 or 7.
#[unsafe(no_mangle)]
pub extern "C" fn boltjuniper_item_current(
    records: &[u32],
    cells: &[u32],
    ox: i32,
    oy: i32,
    oz: i32,
    sx: u32,
    sy: u32,
    sz: u32,
    lowest: i32,
    highest: i32,
    air: u32,
    x: f64,
    y: f64,
    z: f64,
    width: f64,
    height: f64,
    out: &mut [f64],
) -> u32
    ensures value { result ≡ current_refusal (current_at (look_at cells.now (window_of ox oy oz sx sy sz lowest highest air)) records.now (vec x y z) width height) }
    ensures out_after { out.new ≡ current_written out.old (current_at (look_at cells.now (window_of ox oy oz sx sy sz lowest highest air)) records.now (vec x y z) width height) }
{
    let tables = Tables {
        records,
        shapes: &[],
    };
    let view = View {
        words: cells,
        window: window::window_of(ox, oy, oz, sx, sy, sz, lowest, highest, air),
    };
    base::code(lent_calls::current_into(tables, view, Vec3 { x, y, z }, width, height, out))
}
