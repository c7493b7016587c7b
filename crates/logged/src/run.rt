// The minute of a log file.
ghost use Rattle.std.specs.Prelude.{◌≡◌, true};
ghost use Rattle.base.specs.Loop.{stored};
ghost use Rattle.files.specs.Files.{counts_of, is_scene};
ghost use Rattle.files.specs.Contents.{contents_of, contents_in, numbers_in, late_words, body_age, contents_behind};
ghost use Rattle.logs.specs.Logs.{scene_in, is_log, events_by};
ghost use Rattle.minute_state.specs.Minute.{lines_as_numbers};
ghost use Rattle.minute_state.specs.Turns.{minute_of, minute_seen};
ghost use Rattle.logged.specs.Logged.{minute_over, malformed_log, minute_in, minute_first};
ghost use Rattle.logged.specs.Held.{logged_contents, held_minute};

use base::Refusal;
use bodies::MotionNumbers;
use boxes::vectors;
use files::Counts;
use logs::Log;
use minute_state::{Lent, Minute};
use scene_held::{body_age, held, numbers_in, put_apart, words_in};
use tables::Tables;
use window::Window;

// 8: there is nothing to hand back.
fn refused_log() -> Minute
    ensures { minute_seen result ≡ minute_of malformed_log }
{
    let nothing = MotionNumbers {
        feet: vectors::zero(),
        velocity: vectors::zero(),
        on_ground: 0,
    };
    minute_state::begin(nothing, 0, Err(Refusal::Malformed))
}

// The minute of a scene's body among these tables and words.
fn run_among(
    scene: &[u8],
    tables: Tables<'_>,
    words: &mut [u32],
    window: Window,
    file: &[u8],
    log: Log,
    feet: &mut [f64],
) -> Minute
    ensures value { minute_seen result ≡ minute_of (held_minute (contents_of tables.entry.records.now tables.entry.shapes.now words.old window (numbers_in scene.now) (late_words scene.now) (body_age scene.now)) (events_by file.now log)) }
    ensures feet_after { feet.new ≡ stored feet.old 0 (lines_as_numbers (held_minute (contents_of tables.entry.records.now tables.entry.shapes.now words.old window (numbers_in scene.now) (late_words scene.now) (body_age scene.now)) (events_by file.now log)).lines) }
{
    let numbers = numbers_in(scene);
    let late = words_in(scene);
    let lent = Lent {
        tables,
        window,
        rules: bodies::rules_from(&numbers, &late),
        body: bodies::body_from(&numbers, &late),
    };
    let given = bodies::motion_from(&numbers, &late);
    minute::run(lent, words, given, body_age(scene), file, log, feet)
}

// The same of a scene with these counts, whose records, shapes and cells stand first in these places.
fn run_held(
    scene: &[u8],
    n: Counts,
    records: &[u32],
    singles: &[f32],
    words: &mut [u32],
    file: &[u8],
    log: Log,
    feet: &mut [f64],
) -> Minute
    ensures value { minute_seen result ≡ minute_of (held_minute (logged_contents scene.now n records.now singles.now words.old) (events_by file.now log)) }
    ensures feet_after { feet.new ≡ stored feet.old 0 (lines_as_numbers (held_minute (logged_contents scene.now n records.now singles.now words.old) (events_by file.now log)).lines) }
{
    let a = held(n.states as u32 * 20, records.len());
    let b = held(n.boxes as u32 * 6, singles.len());
    let tables = Tables {
        records: &records[..a],
        shapes: &singles[..b],
    };
    let w = files::window_in(scene, n);
    let c = held(groups::summed_words(w.sizes), words.len());
    run_among(scene, tables, &mut words[..c], w, file, log, feet)
}

// The minute of a scene with these counts. 128 blocks hold no more than 15,744 words of a part, and no window has more than 4,096 groups.
fn run_in(scene: &[u8], n: Counts, file: &[u8], log: Log, feet: &mut [f64]) -> Minute
    ensures value { is_scene scene.now ≡ true → counts_of scene.now ≡ n → minute_seen result ≡ minute_of (minute_over (contents_behind scene.now n) (events_by file.now log)) }
    ensures feet_after { is_scene scene.now ≡ true → counts_of scene.now ≡ n → feet.new ≡ stored feet.old 0 (lines_as_numbers (minute_over (contents_behind scene.now n) (events_by file.now log)).lines) }
{
    let mut records = [0u32; 15744];
    let mut singles = [0.0f32; 15744];
    let mut words = [0u32; 19840];
    put_apart(&mut records, &mut singles, &mut words, scene, n);
    run_held(scene, n, &records, &singles, &mut words, file, log, feet)
}

// The minute of a log file's scene through the events of this log.
fn run_with(file: &[u8], log: Log, feet: &mut [f64]) -> Minute
    ensures value { is_log file.now ≡ true → minute_seen result ≡ minute_of (minute_over (contents_in (scene_in file.now)) (events_by file.now log)) }
    ensures feet_after { is_log file.now ≡ true → feet.new ≡ stored feet.old 0 (lines_as_numbers (minute_over (contents_in (scene_in file.now)) (events_by file.now log)).lines) }
{
    let scene = logs::scene_in(file);
    match files::counts_of(scene) {
        Err(_) => refused_log(),
        Ok(n) => run_in(scene, n, file, log, feet),
    }
}

/// The minute of a log: `Malformed` where the file is no log, then 1 to 4 of its scene, and else what its events come to. The feet after each tick are
/// written into lent numbers, three for each, and one whose place is not there is dropped: 11,520 hold those of every log.
pub fn run_log(file: &[u8], feet: &mut [f64]) -> Minute
    ensures value { minute_seen result ≡ minute_of (minute_in file.now) }
    ensures feet_after { feet.new ≡ stored feet.old 0 (lines_as_numbers (minute_in file.now).lines) }
{
    match logs::log_of(file) {
        Err(_) => refused_log(),
        Ok(log) => run_with(file, log, feet),
    }
}

/// The same of a log's first so many events alone: what a minute has come to there.
pub fn run_first(file: &[u8], events: u16, feet: &mut [f64]) -> Minute
    ensures value { minute_seen result ≡ minute_of (minute_first file.now events) }
    ensures feet_after { feet.new ≡ stored feet.old 0 (lines_as_numbers (minute_first file.now events).lines) }
{
    match logs::log_of(file) {
        Err(_) => refused_log(),
        Ok(log) => run_with(file, logs::first_of(log, events), feet),
    }
}
