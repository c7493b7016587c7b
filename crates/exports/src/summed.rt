// A summary behind the words of a window, for a host: building it, setting one cell, its check, and the move and the steps over it.
ghost use Rattle.std.specs.Prelude.{◌≡◌, length};
ghost use Rattle.window.specs.Numbers.{window_of};
ghost use Rattle.summary.specs.Calls.{summed_refusal, build_entry, built_entry, set_entry, after_set_entry};
ghost use Rattle.lent_numbers.specs.Written.{written_by};
ghost use Rattle.fall_rule.specs.Rule.{fall_of};
ghost use Rattle.lent_room.specs.Room.{answer_written};
ghost use Rattle.lent_steps.specs.Falling.{falling_written};
ghost use Rattle.lent_calls.specs.Moves.{move_summed_at};
ghost use Rattle.lent_calls.specs.Ticks.{summed_at};
ghost use Rattle.lent_calls.specs.Falling.{falling_summed_at};
ghost use Rattle.exports.specs.Cells.{cell_named};

use fall_rule::Fall;
use tables::Tables;
use window::{Pos, View};

// `cells` are the words of cells and columns, and behind them one word for each group of 4 by 4 by 4 cells. It writes those, and returns 0; or it
// returns 1, 2, 3 or 11, and writes nothing.
#[unsafe(no_mangle)]
pub extern "C" fn boltjuniper_build_summary(
    records: &[u32],
    shapes: &[f32],
    cells: &mut [u32],
    ox: i32,
    oy: i32,
    oz: i32,
    sx: u32,
    sy: u32,
    sz: u32,
    lowest: i32,
    highest: i32,
    air: u32,
) -> u32
    ensures value { result ≡ build_entry records.now shapes.now cells.old (window_of ox oy oz sx sy sz lowest highest air) }
    ensures cells_after { cells.new ≡ built_entry records.now shapes.now cells.old (window_of ox oy oz sx sy sz lowest highest air) }
{
    let tables = Tables { records, shapes };
    let w = window::window_of(ox, oy, oz, sx, sy, sz, lowest, highest, air);
    base::code(summary::build_summary(tables, cells, w))
}

// The cell at x, y, z becomes this state, and the word of its group is mended. It returns 0; or 1, 2, 3, 11, 13 or 5, and writes nothing. It looks at
// every cell, for 13.
#[unsafe(no_mangle)]
pub extern "C" fn boltjuniper_set_block(
    records: &[u32],
    shapes: &[f32],
    cells: &mut [u32],
    ox: i32,
    oy: i32,
    oz: i32,
    sx: u32,
    sy: u32,
    sz: u32,
    lowest: i32,
    highest: i32,
    air: u32,
    x: i32,
    y: i32,
    z: i32,
    state: u32,
) -> u32
    ensures value { result ≡ set_entry records.now shapes.now cells.old (window_of ox oy oz sx sy sz lowest highest air) (cell_named x y z) }
    ensures cells_after { cells.new ≡ after_set_entry records.now shapes.now cells.old (window_of ox oy oz sx sy sz lowest highest air) (cell_named x y z) state }
{
    let tables = Tables { records, shapes };
    let w = window::window_of(ox, oy, oz, sx, sy, sz, lowest, highest, air);
    base::code(summary::set_block(tables, cells, w, Pos { x, y, z }, state))
}

// 0; or 1, 2, 3, 11 or 13. Who has had a 0 may step many bodies of this air state by `boltjuniper_step_checked` over the same words.
#[unsafe(no_mangle)]
pub extern "C" fn boltjuniper_check_summary(
    records: &[u32],
    shapes: &[f32],
    cells: &[u32],
    ox: i32,
    oy: i32,
    oz: i32,
    sx: u32,
    sy: u32,
    sz: u32,
    lowest: i32,
    highest: i32,
    air: u32,
) -> u32
    ensures { result ≡ summed_refusal records.now shapes.now cells.now (window_of ox oy oz sx sy sz lowest highest air) }
{
    let tables = Tables { records, shapes };
    let view = View {
        words: cells,
        window: window::window_of(ox, oy, oz, sx, sy, sz, lowest, highest, air),
    };
    base::code(summary::check_summed(tables, view))
}

// As `boltjuniper_move`, over a window with a summary: 11 and 13 after 4.
#[unsafe(no_mangle)]
pub extern "C" fn boltjuniper_move_summed(
    records: &[u32],
    shapes: &[f32],
    cells: &[u32],
    ox: i32,
    oy: i32,
    oz: i32,
    sx: u32,
    sy: u32,
    sz: u32,
    lowest: i32,
    highest: i32,
    air: u32,
    mover: &[f64],
    step: f64,
    grounded: u32,
    cap: u32,
    out: &mut [f64],
) -> u32
    ensures value { result ≡ (move_summed_at cap records.now shapes.now cells.now (window_of ox oy oz sx sy sz lowest highest air) mover.now step grounded (length out.old)).refusal }
    ensures out_after { out.new ≡ written_by out.old (move_summed_at cap records.now shapes.now cells.now (window_of ox oy oz sx sy sz lowest highest air) mover.now step grounded (length out.old)) }
{
    let tables = Tables { records, shapes };
    let view = View {
        words: cells,
        window: window::window_of(ox, oy, oz, sx, sy, sz, lowest, highest, air),
    };
    base::code(lent_calls::move_summed_lent(cap, tables, view, mover, step, grounded, out))
}

// As `boltjuniper_step`, over a window with a summary of the body's air state: 11 and 13 after 4.
#[unsafe(no_mangle)]
pub extern "C" fn boltjuniper_step_summed(
    records: &[u32],
    shapes: &[f32],
    cells: &[u32],
    ox: i32,
    oy: i32,
    oz: i32,
    sx: u32,
    sy: u32,
    sz: u32,
    lowest: i32,
    highest: i32,
    numbers: &[f64],
    words: &[u32],
    age: u64,
    out: &mut [f64],
) -> u32
    ensures value { result ≡ (summed_at records.now shapes.now cells.now (window_of ox oy oz sx sy sz lowest highest 0) numbers.now words.now age (length out.old)).refusal }
    ensures out_after { out.new ≡ answer_written out.old (summed_at records.now shapes.now cells.now (window_of ox oy oz sx sy sz lowest highest 0) numbers.now words.now age (length out.old)) }
{
    let tables = Tables { records, shapes };
    let view = View {
        words: cells,
        window: window::window_of(ox, oy, oz, sx, sy, sz, lowest, highest, 0),
    };
    base::code(lent_calls::summed_lent(tables, view, numbers, words, age, out))
}

// As `boltjuniper_step_falling`, over a window with a summary of the body's air state: 11 and 13 after 4.
#[unsafe(no_mangle)]
pub extern "C" fn boltjuniper_step_falling_summed(
    records: &[u32],
    shapes: &[f32],
    cells: &[u32],
    ox: i32,
    oy: i32,
    oz: i32,
    sx: u32,
    sy: u32,
    sz: u32,
    lowest: i32,
    highest: i32,
    numbers: &[f64],
    words: &[u32],
    age: u64,
    sum: f64,
    landed: f64,
    out: &mut [f64],
) -> u32
    ensures value { result ≡ (falling_summed_at records.now shapes.now cells.now (window_of ox oy oz sx sy sz lowest highest 0) numbers.now words.now age (fall_of sum landed) (length out.old)).step.refusal }
    ensures out_after { out.new ≡ falling_written out.old (falling_summed_at records.now shapes.now cells.now (window_of ox oy oz sx sy sz lowest highest 0) numbers.now words.now age (fall_of sum landed) (length out.old)) }
{
    let tables = Tables { records, shapes };
    let view = View {
        words: cells,
        window: window::window_of(ox, oy, oz, sx, sy, sz, lowest, highest, 0),
    };
    let fall = Fall { sum, landed };
    base::code(lent_calls::falling_summed_lent(tables, view, numbers, words, age, fall, out))
}
