// Writes the log of a minute behind the scene that a lent buffer begins with: a recorder writes the scene when the minute begins, and its events
// when it is over.
#![tactic(auto)]

ghost use Rattle.std.specs.Prelude.{◌≡◌, ◌+◌, ◌*◌, ◌/◌, ◌≤◌, length};
ghost use Rattle.base.specs.Refusals.{verdict};
ghost use Rattle.writer.specs.Written.{bytes_told};
ghost use Rattle.base.specs.Every.{every};
ghost use Rattle.part_writer.specs.Bytes.{word_in};
ghost use Rattle.logs.specs.Logs.{is_tick, is_set, event_fits};
ghost use Rattle.log_writer.specs.Written.{lent_events_fit, scene_there, scene_blocks_in, log_blocks, log_refusal, written_log, log_answer};

use base::Refusal;
use block_writer::word_in;

// Event i is a tick.
#[tactic(auto, using(base::proofs::Cases::cases), unfolding(logs::specs::Logs::is_tick))]
fn is_tick(events: &[u32], i: usize) -> bool
    requires { i * 4 + 4 ≤ length events.now }
    ensures { result ≡ is_tick (word_in events.now) i }
{
    word_in(events, i * 4) == 1
        && word_in(events, i * 4 + 1) == 0
        && word_in(events, i * 4 + 2) == 0
        && word_in(events, i * 4 + 3) == 0
}

// Event i sets a cell.
#[tactic(auto, using(base::proofs::Cases::cases), unfolding(logs::specs::Logs::is_set))]
fn is_set(events: &[u32], i: usize) -> bool
    requires { i * 4 + 4 ≤ length events.now }
    ensures { result ≡ is_set (word_in events.now) i }
{
    word_in(events, i * 4) == 2
        && word_in(events, i * 4 + 1) < 16777216
        && word_in(events, i * 4 + 3) == 0
}

#[tactic(auto, using(base::proofs::Cases::cases), unfolding(logs::specs::Logs::event_fits))]
fn event_fits(events: &[u32], i: usize) -> bool
    requires { i * 4 + 4 ≤ length events.now }
    ensures { result ≡ event_fits (word_in events.now) i }
{
    is_tick(events, i) || is_set(events, i)
}

#[tactic(auto, using(base::proofs::Every::each))]
fn all_fit(events: &[u32]) -> bool
    ensures { result ≡ every (length events.now / 4) (event_fits (word_in events.now)) }
{
    for i in 0..events.len() / 4 {
        if !event_fits(events, i) {
            return false;
        }
    }
    true
}

// Whole events, each of which fits.
#[tactic(auto, using(base::proofs::Cases::cases), unfolding(crate::specs::Written::lent_events_fit))]
fn lent_events_fit(events: &[u32]) -> bool
    ensures { result ≡ lent_events_fit events.now }
{
    events.len() % 4 == 0 && all_fit(events)
}

// The buffer begins with a scene of the new mark.
#[tactic(auto, using(base::proofs::Cases::cases), unfolding(crate::specs::Written::scene_there))]
fn scene_there(out: &[u8]) -> bool
    ensures { result ≡ scene_there out.now }
{
    block_checks::is_marked(true, out) && files::is_scene(logs::scene_in(out))
}

// How many blocks the scene has.
fn scene_blocks_in(out: &[u8]) -> usize
    ensures { result ≡ scene_blocks_in out.now }
{
    logs::scene_in(out).len() / 512
}

// How many the log has: 30 events each, and the end behind them.
fn log_blocks(events: &[u32]) -> usize
    ensures { result ≡ log_blocks events.now }
{
    events.len() / 120 + 1
}

// 8, then 12, then 11.
#[tactic(auto, using(base::proofs::Cases::cases), unfolding(crate::specs::Written::log_refusal, base::specs::Choose::choose))]
fn check_log(events: &[u32], out: &[u8]) -> Result<(), Refusal>
    ensures { verdict result ≡ log_refusal out.now events.now }
{
    if !scene_there(out) {
        return Err(Refusal::Malformed);
    }
    if !lent_events_fit(events) {
        return Err(Refusal::Malformed);
    }
    let scene = scene_blocks_in(out);
    let behind = log_blocks(events);
    scene_room::check_room(scene + behind, out.len())
}

/// The log of these events, four words each, behind the scene at the start of `out`; the end is written behind them. A refusal writes nothing: 8
/// where `out` begins with no scene of the new mark or an event does not fit, then 12 for more than 128 blocks of scene and log together, then 11
/// for a buffer too short. It answers how many bytes scene and log have.
pub fn write_log(events: &[u32], out: &mut [u8]) -> Result<usize, Refusal>
    ensures out_after { out.new ≡ written_log out.old events.now }
    ensures value { bytes_told result ≡ log_answer out.old events.now }
{
    check_log(events, out)?;
    let scene = scene_blocks_in(out);
    let behind = log_blocks(events);
    part_writer::put_words(out, blocks::log_part(scene as u32, behind as u16), events);
    Ok((scene + behind) * 512)
}
