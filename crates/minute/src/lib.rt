// A minute: a body run through the events of a log, over lent words of cells, columns and summary. The feet after each tick are written into lent
// numbers, three for each. It comes to what separate steps come to (proofs/Separate.antt).
#![tactic(auto)]

ghost use Rattle.std.specs.Prelude.{◌≡◌, [], eqb};
ghost use Rattle.base.specs.Choose.{choose};
ghost use Rattle.base.specs.Loop.{listed, stored};
ghost use Rattle.base.specs.Refusals.{verdict};
ghost use Rattle.groups.specs.Summary.{built, set_refusal, after_set};
ghost use Rattle.logs.specs.Logs.{log_word, event_at, events_by};
ghost use Rattle.minute_state.specs.Minute.{lent_seen, minute_window, set_place, after, start_refusal, minute, lines_as_numbers};
ghost use Rattle.minute_state.specs.Turns.{minute_of, minute_seen, state_of, step_by, ticked_by, feet_by, turned_by, words_by, feet_after};

use base::Refusal;
use bodies::MotionNumbers;
use groups::Place;
use logs::{CellSet, Event, Log};
use minute_state::{Lent, Minute, begin, ended_with, ticked};
use window::{View, Window};

// The window's air is that of the rules, as in every step.
fn window_of(lent: Lent<'_>) -> Window
    ensures { result ≡ minute_window (lent_seen lent.entry) }
{
    lent.window.with_air(lent.rules.air)
}

// One tick, over the words as they now are.
fn tick(lent: Lent<'_>, words: &[u32], m: Minute, feet: &mut [f64]) -> Minute
    ensures value { minute_seen result ≡ ticked_by (minute_seen m) (step_by (lent_seen lent.entry) words.now (minute_seen m)) }
    ensures feet_after { feet.new ≡ feet_by feet.old (minute_seen m) (step_by (lent_seen lent.entry) words.now (minute_seen m)) }
{
    let view = View {
        words,
        window: window_of(lent),
    };
    let answer = falls::step_falling_checked(
        lent.tables,
        view,
        lent.rules,
        lent.body,
        m.motion,
        m.age,
        m.fall,
    );
    ticked(m, answer, feet)
}

// One cell set, and the word of its group mended.
fn set_cell(lent: Lent<'_>, words: &mut [u32], q: CellSet) -> Result<(), Refusal>
    ensures value { verdict result ≡ set_refusal words.old (minute_window (lent_seen lent.entry)) (set_place (lent_seen lent.entry) q) }
    ensures words_after { words.new ≡ after_set lent.entry.tables.records.now words.old (minute_window (lent_seen lent.entry)) (set_place (lent_seen lent.entry) q) q.state }
{
    let place = Place {
        x: q.x,
        y: q.y,
        z: q.z,
    };
    groups::set_at(lent.tables, words, window_of(lent), place, q.state)
}

// One event.
fn turn(lent: Lent<'_>, words: &mut [u32], m: Minute, e: Event, feet: &mut [f64]) -> Minute
    ensures value { minute_seen result ≡ turned_by (lent_seen lent.entry) words.old (minute_seen m) e }
    ensures words_after { words.new ≡ words_by (lent_seen lent.entry) words.old e }
    ensures feet_after { feet.new ≡ feet_after (lent_seen lent.entry) words.old (minute_seen m) feet.old e }
{
    match e {
        Event::Tick => tick(lent, words, m, feet),
        Event::Set(q) => ended_with(m, set_cell(lent, words, q)),
    }
}

// The first n events of a log, one after the other; the first refusal ends it.
fn play(
    lent: Lent<'_>,
    words: &mut [u32],
    begun: Minute,
    file: &[u8],
    log: Log,
    n: u16,
    feet: &mut [f64],
) -> Minute
    requires ticks_value { begun.ticks ≡ 0 }
    requires refusal_value { verdict begun.ended ≡ 0 }
    ensures value { minute_seen result ≡ minute_of (after (lent_seen lent.entry) (state_of (minute_seen begun) words.old []) (listed (event_at (log_word file.now log.scene log.blocks)) n 0)) }
    ensures words_after { words.new ≡ (after (lent_seen lent.entry) (state_of (minute_seen begun) words.old []) (listed (event_at (log_word file.now log.scene log.blocks)) n 0)).words }
    ensures feet_after { feet.new ≡ stored feet.old 0 (lines_as_numbers (after (lent_seen lent.entry) (state_of (minute_seen begun) words.old []) (listed (event_at (log_word file.now log.scene log.blocks)) n 0)).lines) }
{
    let mut m = begun;
    for i in 0..n {
        let e = logs::event_at(file, log, i);
        m = turn(lent, words, m, e, feet);
        if m.ended.is_err() {
            return m;
        }
    }
    m
}

// Before the first event: `Tables`, `Window`, `Number` and `Place`; then the summary is built, and `Room` is for words that have no place for it.
#[tactic(auto, using(base::proofs::Cases::cases), unfolding(minute_state::specs::Minute::start_refusal, groups::specs::Summary::build_refusal, groups::specs::Summary::built, base::specs::Choose::choose))]
fn start(lent: Lent<'_>, words: &mut [u32], given: MotionNumbers) -> Result<(), Refusal>
    ensures value { verdict result ≡ start_refusal (lent_seen lent.entry) words.old given }
    ensures words_after { words.new ≡ choose (eqb (start_refusal (lent_seen lent.entry) words.old given) 0) (built lent.entry.tables.records.now words.old (minute_window (lent_seen lent.entry))) words.old }
{
    let window = window_of(lent);
    lent::check_lent(lent.tables, summary::plain(View { words, window }))?;
    bodies::check_numbers(lent.tables, lent.rules, lent.body, given)?;
    groups::build(lent.tables, words, window)
}

/// The minute of a body through a log's events. The words are those of cells and columns, with room behind them for the summary, which is built
/// first. A refusal before anything runs leaves words and feet as they are; a number of the feet whose place is not there is dropped.
pub fn run(
    lent: Lent<'_>,
    words: &mut [u32],
    given: MotionNumbers,
    age: u64,
    file: &[u8],
    log: Log,
    feet: &mut [f64],
) -> Minute
    ensures value { minute_seen result ≡ minute_of (minute (lent_seen lent.entry) words.old given age (events_by file.now log)) }
    ensures words_after { words.new ≡ (minute (lent_seen lent.entry) words.old given age (events_by file.now log)).words }
    ensures feet_after { feet.new ≡ stored feet.old 0 (lines_as_numbers (minute (lent_seen lent.entry) words.old given age (events_by file.now log)).lines) }
{
    let started = start(lent, words, given);
    let begun = begin(given, age, started);
    if started.is_err() {
        return begun;
    }
    play(lent, words, begun, file, log, log.events, feet)
}
