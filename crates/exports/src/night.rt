// The midnight run, in lent rows.
ghost use Rattle.std.specs.Prelude.{true, false, ◌≡◌, length};
ghost use Rattle.night_answers.specs.Answers.{lent_with};
ghost use Rattle.midnight.specs.Run.{run_refusal, bodies_of, run_written};

use night_rows::{Bodies, Windows};
use tables::Tables;

// One tick of each of `bodies` bodies, at most 4,096, over one table and `count` windows, at most 16. All stand in rows, one behind the
// other. A window has ten words: signed origin, sizes, the world's lowest and highest cell, then where its own words begin among `cells` and how
// many they are. A body has 21 numbers, those of `boltjuniper_step` and its fall record, sum and landed; and nine words: the number of its
// window, its age (low word first), then those of `boltjuniper_step` but for the cap, which is 128 here: 6 is the 129th box. For each body 13
// numbers are written: its refusal, then the twelve of `boltjuniper_step_falling`; a refused body has its motion and fall record as given, liquid
// none, and no sample. What lies beyond the last row is kept. It returns 0; or 1, 14 or 11, and writes nothing.
#[unsafe(no_mangle)]
pub extern "C" fn boltjuniper_midnight(
    records: &[u32],
    shapes: &[f32],
    windows: &[u32],
    count: u32,
    cells: &[u32],
    numbers: &[f64],
    words: &[u32],
    bodies: u32,
    out: &mut [f64],
) -> u32
    ensures value { result ≡ run_refusal (lent_with records.now shapes.now windows.now count cells.now) bodies (length out.old) }
    ensures out_after { out.new ≡ run_written (lent_with records.now shapes.now windows.now count cells.now) (bodies_of true numbers.now words.now bodies) out.old }
{
    let tables = Tables { records, shapes };
    let windows = Windows {
        rows: windows,
        count,
        cells,
    };
    let bodies = Bodies {
        older: true,
        numbers,
        words,
        count: bodies,
    };
    base::code(midnight::run(tables, windows, bodies, out))
}

// The same with a tenth word for each body behind those nine, the cap: 0 to 512, where 0 stands for 512.
#[unsafe(no_mangle)]
pub extern "C" fn boltjuniper_midnight_capped(
    records: &[u32],
    shapes: &[f32],
    windows: &[u32],
    count: u32,
    cells: &[u32],
    numbers: &[f64],
    words: &[u32],
    bodies: u32,
    out: &mut [f64],
) -> u32
    ensures value { result ≡ run_refusal (lent_with records.now shapes.now windows.now count cells.now) bodies (length out.old) }
    ensures out_after { out.new ≡ run_written (lent_with records.now shapes.now windows.now count cells.now) (bodies_of false numbers.now words.now bodies) out.old }
{
    let tables = Tables { records, shapes };
    let windows = Windows {
        rows: windows,
        count,
        cells,
    };
    let bodies = Bodies {
        older: false,
        numbers,
        words,
        count: bodies,
    };
    base::code(midnight::run(tables, windows, bodies, out))
}
