// The move through a window, in lent numbers.
ghost use Rattle.std.specs.Prelude.{◌≡◌, length};
ghost use Rattle.window.specs.Numbers.{window_of};
ghost use Rattle.lent_numbers.specs.Written.{written_by};
ghost use Rattle.lent_calls.specs.Moves.{move_at};

use tables::Tables;
use window::View;

// The move of a box through a window, for a host: `mover` is the box and its delta, nine numbers, and `grounded` is 1 where the body was on
// the ground, else 0; `cap` is how many boxes it may collect, 0 to 512, where 0 stands for 512. It writes ten numbers and returns 0, or writes
// nothing and returns 1 to 4, 11, 5 or 6. Where lengths fit and there is room the move itself finds 1 to 4, so that nothing is looked at twice.
#[unsafe(no_mangle)]
pub extern "C" fn boltjuniper_move(
    records: &[u32],
    shapes: &[f32],
    cells: &[u32],
    ox: i32,
    oy: i32,
    oz: i32,
    sx: u32,
    sy: u32,
    sz: u32,
    lowest: i32,
    highest: i32,
    air: u32,
    mover: &[f64],
    step: f64,
    grounded: u32,
    cap: u32,
    out: &mut [f64],
) -> u32
    ensures value { result ≡ (move_at cap records.now shapes.now cells.now (window_of ox oy oz sx sy sz lowest highest air) mover.now step grounded (length out.old)).refusal }
    ensures out_after { out.new ≡ written_by out.old (move_at cap records.now shapes.now cells.now (window_of ox oy oz sx sy sz lowest highest air) mover.now step grounded (length out.old)) }
{
    let tables = Tables { records, shapes };
    let view = View {
        words: cells,
        window: window::window_of(ox, oy, oz, sx, sy, sz, lowest, highest, air),
    };
    base::code(lent_calls::move_lent(cap, tables, view, mover, step, grounded, out))
}
