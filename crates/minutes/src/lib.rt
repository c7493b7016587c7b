// What a host of minutes links beside `exports`, or alone: a body run through the events of a log, over lent memory. The order of parameters is that of
// the step in `exports`. In an archive of its own the step has one caller, and the compiler puts it there.
#![tactic(auto)]

ghost use Rattle.std.specs.Prelude.{◌≡◌, length};
ghost use Rattle.base.specs.Loop.{stored};
ghost use Rattle.base.specs.Refusals.{verdict};
ghost use Rattle.bodies.specs.Lent.{motion_at, body_at, rules_at};
ghost use Rattle.window.specs.Numbers.{window_of};
ghost use Rattle.logs.specs.Logs.{events_by};
ghost use Rattle.minute_state.specs.Minute.{lent_by, minute, lines_as_numbers};
ghost use Rattle.minute_state.specs.Turns.{minute_of, minute_seen};
ghost use Rattle.minute_told.specs.Numbers.{minute_written};
ghost use Rattle.minutes.specs.Calls.{whole_minute, short_at, minute_at};

use base::Refusal;
use lent_room::short_of;
use logs::Log;
use minute_state::{Lent, Minute};
use tables::Tables;
use window::{View, Window};

#[tactic(auto, using(base::proofs::Cases::cases))]
fn whole_minute(numbers: &[f64], words: &[u32], places: usize) -> bool
    ensures { result ≡ whole_minute numbers.now words.now places }
{
    bodies::lengths_fit(numbers, words) && places >= 12
}

// Where a slice has another length than it should, or `out` has too little room: 1 or 2, then 3 or 4, then 11.
fn short_at(
    tables: Tables<'_>,
    view: View<'_>,
    numbers: &[f64],
    words: &[u32],
) -> Result<(), Refusal>
    ensures { verdict result ≡ short_at tables.entry.records.now tables.entry.shapes.now view.entry.words.now view.entry.window numbers.now words.now }
{
    short_of(
        lent::check_lent(tables, summary::plain(view)),
        bodies::check_body(tables, numbers, words),
    )
}

// The minute of a body that has its numbers.
fn run_body(
    tables: Tables<'_>,
    cells: &mut [u32],
    window: Window,
    numbers: &[f64],
    words: &[u32],
    age: u64,
    log: &[u8],
    l: Log,
    feet: &mut [f64],
) -> Minute
    ensures value { minute_seen result ≡ minute_of (minute (lent_by tables.entry.records.now tables.entry.shapes.now window (rules_at numbers.now words.now) (body_at numbers.now words.now)) cells.old (motion_at numbers.now words.now) age (events_by log.now l)) }
    ensures cells_after { cells.new ≡ (minute (lent_by tables.entry.records.now tables.entry.shapes.now window (rules_at numbers.now words.now) (body_at numbers.now words.now)) cells.old (motion_at numbers.now words.now) age (events_by log.now l)).words }
    ensures feet_after { feet.new ≡ stored feet.old 0 (lines_as_numbers (minute (lent_by tables.entry.records.now tables.entry.shapes.now window (rules_at numbers.now words.now) (body_at numbers.now words.now)) cells.old (motion_at numbers.now words.now) age (events_by log.now l)).lines) }
{
    let lent = Lent {
        tables,
        window,
        rules: bodies::rules_from(numbers, words),
        body: bodies::body_from(numbers, words),
    };
    let given = bodies::motion_from(numbers, words);
    minute::run(lent, cells, given, age, log, l, feet)
}

// The same of a log's bytes: 8 where they are no log, and else by lengths and room.
fn run_log(
    tables: Tables<'_>,
    cells: &mut [u32],
    window: Window,
    numbers: &[f64],
    words: &[u32],
    age: u64,
    log: &[u8],
    feet: &mut [f64],
    out: &mut [f64],
) -> Result<(), Refusal>
    ensures value { verdict result ≡ (minute_at tables.entry.records.now tables.entry.shapes.now cells.old window numbers.now words.now age log.now (length out.old)).refusal }
    ensures cells_after { cells.new ≡ (minute_at tables.entry.records.now tables.entry.shapes.now cells.old window numbers.now words.now age log.now (length out.old)).words }
    ensures feet_after { feet.new ≡ stored feet.old 0 (lines_as_numbers (minute_at tables.entry.records.now tables.entry.shapes.now cells.old window numbers.now words.now age log.now (length out.old)).lines) }
    ensures out_after { out.new ≡ minute_written out.old (minute_of (minute_at tables.entry.records.now tables.entry.shapes.now cells.old window numbers.now words.now age log.now (length out.old))) }
{
    let l = logs::log_of(log)?;
    if !whole_minute(numbers, words, out.len()) {
        let words_lent = View {
            words: cells,
            window,
        };
        return short_at(tables, words_lent, numbers, words);
    }
    let m = run_body(tables, cells, window, numbers, words, age, log, l, feet);
    minute_told::minute_into(out, m)
}

// A minute of a body: it is run through the events of a log, from a fresh fall record on. `cells` are the words of cells and columns, with room behind them
// for the summary, which is built first; sets write to them. `log` are the bytes of a log, whose events alone are used. The feet after each tick go to
// `feet`, three numbers for each; one whose place is not there is dropped. It writes feet, velocity, ground, the fall record, how many ticks were done
// and the age, its low word first, twelve numbers, and returns 0 or the refusal that ended the run; a refusal before the first tick writes none of
// them, and 8, 1 to 4 and 11, in this order, come before anything runs, and write nothing at all.
#[unsafe(no_mangle)]
pub extern "C" fn boltjuniper_minute(
    records: &[u32],
    shapes: &[f32],
    cells: &mut [u32],
    ox: i32,
    oy: i32,
    oz: i32,
    sx: u32,
    sy: u32,
    sz: u32,
    lowest: i32,
    highest: i32,
    numbers: &[f64],
    words: &[u32],
    age: u64,
    log: &[u8],
    feet: &mut [f64],
    out: &mut [f64],
) -> u32
    ensures value { result ≡ (minute_at records.now shapes.now cells.old (window_of ox oy oz sx sy sz lowest highest 0) numbers.now words.now age log.now (length out.old)).refusal }
    ensures cells_after { cells.new ≡ (minute_at records.now shapes.now cells.old (window_of ox oy oz sx sy sz lowest highest 0) numbers.now words.now age log.now (length out.old)).words }
    ensures feet_after { feet.new ≡ stored feet.old 0 (lines_as_numbers (minute_at records.now shapes.now cells.old (window_of ox oy oz sx sy sz lowest highest 0) numbers.now words.now age log.now (length out.old)).lines) }
    ensures out_after { out.new ≡ minute_written out.old (minute_of (minute_at records.now shapes.now cells.old (window_of ox oy oz sx sy sz lowest highest 0) numbers.now words.now age log.now (length out.old))) }
{
    let tables = Tables { records, shapes };
    let window = window::window_of(ox, oy, oz, sx, sy, sz, lowest, highest, 0);
    base::code(run_log(tables, cells, window, numbers, words, age, log, feet, out))
}
