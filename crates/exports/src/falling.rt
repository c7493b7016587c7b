// The step with a fall record, in lent numbers.
ghost use Rattle.std.specs.Prelude.{◌≡◌, length};
ghost use Rattle.window.specs.Numbers.{window_of};
ghost use Rattle.fall_rule.specs.Rule.{fall_of};
ghost use Rattle.lent_steps.specs.Falling.{falling_written};
ghost use Rattle.lent_calls.specs.Falling.{falling_at};

use fall_rule::Fall;
use tables::Tables;
use window::View;

// One tick of a body over a window with its fall record, the falling sum and the landed number: all else as `boltjuniper_step` takes it. It writes
// that step's first eight numbers, then sum and landed, then that step's last two, twelve in all, and returns 0; or it returns a refusal and
// writes nothing, so that the host's record stays as it is.
#[unsafe(no_mangle)]
pub extern "C" fn boltjuniper_step_falling(
    records: &[u32],
    shapes: &[f32],
    cells: &[u32],
    ox: i32,
    oy: i32,
    oz: i32,
    sx: u32,
    sy: u32,
    sz: u32,
    lowest: i32,
    highest: i32,
    numbers: &[f64],
    words: &[u32],
    age: u64,
    sum: f64,
    landed: f64,
    out: &mut [f64],
) -> u32
    ensures value { result ≡ (falling_at records.now shapes.now cells.now (window_of ox oy oz sx sy sz lowest highest 0) numbers.now words.now age (fall_of sum landed) (length out.old)).step.refusal }
    ensures out_after { out.new ≡ falling_written out.old (falling_at records.now shapes.now cells.now (window_of ox oy oz sx sy sz lowest highest 0) numbers.now words.now age (fall_of sum landed) (length out.old)) }
{
    let tables = Tables { records, shapes };
    let view = View {
        words: cells,
        window: window::window_of(ox, oy, oz, sx, sy, sz, lowest, highest, 0),
    };
    let fall = Fall { sum, landed };
    base::code(lent_calls::falling_lent(tables, view, numbers, words, age, fall, out))
}
