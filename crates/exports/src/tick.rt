// The step, in lent numbers.
ghost use Rattle.std.specs.Prelude.{◌≡◌, length};
ghost use Rattle.window.specs.Numbers.{window_of};
ghost use Rattle.lent_room.specs.Room.{answer_written};
ghost use Rattle.lent_calls.specs.Ticks.{checked_at, step_at};

use tables::Tables;
use window::View;

// One tick of a body over a window. `numbers` are feet, velocity, width, height, network offset, gravity, vertical drag, horizontal drag, flap,
// step height, then of the rules default friction, sample depth, liquid gravity, water drag, lava drag, 19 of them; `words` are ground, model,
// stage, ground friction, flap present, air state, cap, 7 of them. It writes feet, velocity, ground and liquid, then the case of its sample and the
// sampled number, ten numbers, and returns 0; or it returns a refusal and writes nothing. Where lengths fit and there is room the step itself
// finds 1 to 4, so that nothing is looked at twice.
#[unsafe(no_mangle)]
pub extern "C" fn boltjuniper_step(
    records: &[u32],
    shapes: &[f32],
    cells: &[u32],
    ox: i32,
    oy: i32,
    oz: i32,
    sx: u32,
    sy: u32,
    sz: u32,
    lowest: i32,
    highest: i32,
    numbers: &[f64],
    words: &[u32],
    age: u64,
    out: &mut [f64],
) -> u32
    ensures value { result ≡ (step_at records.now shapes.now cells.now (window_of ox oy oz sx sy sz lowest highest 0) numbers.now words.now age (length out.old)).refusal }
    ensures out_after { out.new ≡ answer_written out.old (step_at records.now shapes.now cells.now (window_of ox oy oz sx sy sz lowest highest 0) numbers.now words.now age (length out.old)) }
{
    let tables = Tables { records, shapes };
    let view = View {
        words: cells,
        window: window::window_of(ox, oy, oz, sx, sy, sz, lowest, highest, 0),
    };
    base::code(lent_calls::step_lent(tables, view, numbers, words, age, out))
}

// The same over tables and a window that were checked before, once for many bodies. That what it writes is finite is promised of tables that pass
// the check, and of no others.
#[unsafe(no_mangle)]
pub extern "C" fn boltjuniper_step_checked(
    records: &[u32],
    shapes: &[f32],
    cells: &[u32],
    ox: i32,
    oy: i32,
    oz: i32,
    sx: u32,
    sy: u32,
    sz: u32,
    lowest: i32,
    highest: i32,
    numbers: &[f64],
    words: &[u32],
    age: u64,
    out: &mut [f64],
) -> u32
    ensures value { result ≡ (checked_at records.now shapes.now cells.now (window_of ox oy oz sx sy sz lowest highest 0) numbers.now words.now age (length out.old)).refusal }
    ensures out_after { out.new ≡ answer_written out.old (checked_at records.now shapes.now cells.now (window_of ox oy oz sx sy sz lowest highest 0) numbers.now words.now age (length out.old)) }
{
    let tables = Tables { records, shapes };
    let view = View {
        words: cells,
        window: window::window_of(ox, oy, oz, sx, sy, sz, lowest, highest, 0),
    };
    base::code(lent_calls::checked_lent(tables, view, numbers, words, age, out))
}
