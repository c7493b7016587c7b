// What a recorder links, and nothing else: it writes scene files, and logs of a minute behind them. The order of parameters is that of the step in `exports`.
#![tactic(auto)]

ghost use Rattle.std.specs.Prelude.{◌≡◌, length};
ghost use Rattle.window.specs.Numbers.{window_of};
ghost use Rattle.files.specs.Contents.{contents_of};
ghost use Rattle.writer.specs.Written.{bytes_told, written_scene, scene_answer, written_checked, checked_answer};
ghost use Rattle.log_writer.specs.Written.{written_log, log_answer};
ghost use Rattle.recorder.specs.Answers.{bytes_or_refusal};

use base::Refusal;
use tables::Tables;
use window::View;

// How many bytes were written, or the number of the refusal.
#[tactic(auto, using(base::proofs::Cases::cases), unfolding(base::specs::Choose::choose))]
fn bytes_or_refusal(answer: Result<usize, Refusal>) -> u64
    ensures { result ≡ bytes_or_refusal (bytes_told answer) }
{
    match answer {
        Ok(bytes) => bytes as u64,
        Err(refusal) => u64::from(refusal.number()),
    }
}

// A scene of a body among these tables and cells, into `out`. `numbers` and `words` are a body's, as the step takes them. It returns how many bytes it
// wrote, 512 to a block and 65,536 at most; or it writes nothing and returns a refusal: 1 to 4 as the step does, then 12 for more than 128 blocks, then
// 11 where `out` has no room for all of them.
#[unsafe(no_mangle)]
pub extern "C" fn boltjuniper_write_scene(
    records: &[u32],
    shapes: &[f32],
    cells: &[u32],
    ox: i32,
    oy: i32,
    oz: i32,
    sx: u32,
    sy: u32,
    sz: u32,
    lowest: i32,
    highest: i32,
    numbers: &[f64],
    words: &[u32],
    age: u64,
    out: &mut [u8],
) -> u64
    ensures value { result ≡ bytes_or_refusal (scene_answer (length out.old) (contents_of records.now shapes.now cells.now (window_of ox oy oz sx sy sz lowest highest 0) numbers.now words.now age)) }
    ensures out_after { out.new ≡ written_scene out.old (contents_of records.now shapes.now cells.now (window_of ox oy oz sx sy sz lowest highest 0) numbers.now words.now age) }
{
    let tables = Tables { records, shapes };
    let view = View {
        words: cells,
        window: window::window_of(ox, oy, oz, sx, sy, sz, lowest, highest, 0),
    };
    bytes_or_refusal(writer::write_scene(tables, view, numbers, words, age, out))
}

// The same for contents that were looked at before, as by a step: it looks for none of 1 to 4.
#[unsafe(no_mangle)]
pub extern "C" fn boltjuniper_write_checked(
    records: &[u32],
    shapes: &[f32],
    cells: &[u32],
    ox: i32,
    oy: i32,
    oz: i32,
    sx: u32,
    sy: u32,
    sz: u32,
    lowest: i32,
    highest: i32,
    numbers: &[f64],
    words: &[u32],
    age: u64,
    out: &mut [u8],
) -> u64
    ensures value { result ≡ bytes_or_refusal (checked_answer (length out.old) (contents_of records.now shapes.now cells.now (window_of ox oy oz sx sy sz lowest highest 0) numbers.now words.now age)) }
    ensures out_after { out.new ≡ written_checked out.old (contents_of records.now shapes.now cells.now (window_of ox oy oz sx sy sz lowest highest 0) numbers.now words.now age) }
{
    let tables = Tables { records, shapes };
    let view = View {
        words: cells,
        window: window::window_of(ox, oy, oz, sx, sy, sz, lowest, highest, 0),
    };
    bytes_or_refusal(writer::write_checked(tables, view, numbers, words, age, out))
}

// The log of a minute behind the scene that `out` begins with, as one of the two above wrote it. `events` are four words each, in their order: 1 and three
// zeros for a tick; 2, the packed position, the state and a zero for a cell that was set. The end is written behind them. It returns how many bytes
// scene and log have together; or it writes nothing and returns a refusal: 8 where `out` begins with no scene of the new mark or an event does not fit,
// then 12 for more than 128 blocks together, then 11 where `out` has no room for all of them.
#[unsafe(no_mangle)]
pub extern "C" fn boltjuniper_write_log(events: &[u32], out: &mut [u8]) -> u64
    ensures value { result ≡ bytes_or_refusal (log_answer out.old events.now) }
    ensures out_after { out.new ≡ written_log out.old events.now }
{
    bytes_or_refusal(log_writer::write_log(events, out))
}
