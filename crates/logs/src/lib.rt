// Which files are logs of a minute, a scene and the blocks of events behind it, and the events that they hold.
#![tactic(auto)]

ghost use Rattle.std.specs.Prelude.{◌≡◌, ◌+◌, ◌*◌, ◌≤◌, length};
ghost use Rattle.base.specs.Choose.{choose};
ghost use Rattle.base.specs.Every.{every};
ghost use Rattle.base.specs.Ask.{refused, found};
ghost use Rattle.base.specs.Refusals.{asked};
ghost use Rattle.blocks.specs.Blocks.{part_word};
ghost use Rattle.logs.specs.Logs.{is_tick, is_set, event_fits, set_of, event_at, end_from, end_fits, rest_of_log_zero, events_fit, first_blocks, scene_in, log_word, log_behind, log_from, log_of, log_fits, whole_log, is_log, first_of};

use base::Refusal;
use blocks::{Part, log_part, part_fits, part_word};

// A cell that is set: how far it lies from the window's origin, and the state that it becomes.
#[derive(Clone, Copy)]
pub struct CellSet {
    pub x: u32,
    pub y: u32,
    pub z: u32,
    pub state: u32,
}

#[derive(Clone, Copy)]
pub enum Event {
    Tick,
    Set(CellSet),
}

// How many blocks the scene has, how many the log behind it, and how many events come before the end.
#[derive(Clone, Copy)]
pub struct Log {
    pub scene: u32,
    pub blocks: u16,
    pub events: u16,
}

// Word k of event i.
fn event_word(file: &[u8], p: Part, i: u16, k: u8) -> u32
    ensures { result ≡ part_word file.now p (i * 4 + k) }
{
    part_word(file, p, i as u32 * 4 + k as u32)
}

fn number_at(file: &[u8], p: Part, i: u16) -> u32
    ensures { result ≡ part_word file.now p (i * 4) }
{
    part_word(file, p, i as u32 * 4)
}

#[tactic(auto, using(base::proofs::Cases::cases), unfolding(crate::specs::Logs::is_tick))]
fn is_tick(file: &[u8], p: Part, i: u16) -> bool
    ensures { result ≡ is_tick (part_word file.now p) i }
{
    number_at(file, p, i) == 1
        && event_word(file, p, i, 1) == 0
        && event_word(file, p, i, 2) == 0
        && event_word(file, p, i, 3) == 0
}

#[tactic(auto, using(base::proofs::Cases::cases), unfolding(crate::specs::Logs::is_set))]
fn is_set(file: &[u8], p: Part, i: u16) -> bool
    ensures { result ≡ is_set (part_word file.now p) i }
{
    number_at(file, p, i) == 2
        && event_word(file, p, i, 1) < 16777216
        && event_word(file, p, i, 3) == 0
}

#[tactic(auto, unfolding(crate::specs::Logs::event_fits))]
fn event_fits(file: &[u8], p: Part, i: u16) -> bool
    ensures { result ≡ event_fits (part_word file.now p) i }
{
    is_tick(file, p, i) || is_set(file, p, i)
}

// Each of the first so many events.
fn all_fit(file: &[u8], p: Part, n: u16) -> bool
    ensures { result ≡ every n (event_fits (part_word file.now p)) }
{
    (0..n).all(|i| event_fits(file, p, i))
}

// The first of so many events whose number is 0.
fn end_in(file: &[u8], p: Part, n: u16) -> u16
    ensures { result ≡ end_from (part_word file.now p) n 0 }
{
    (0..n).find(|i| number_at(file, p, *i) == 0).unwrap_or(n)
}

#[tactic(auto, using(base::proofs::Cases::cases), unfolding(crate::specs::Logs::end_fits))]
fn end_fits(blocks: u16, e: u16) -> bool
    ensures { result ≡ end_fits blocks e }
{
    let all = blocks as u32 * 30;
    let end = e as u32;
    all <= end + 30 && end < all
}

fn rest_of_log_zero(file: &[u8], p: Part, blocks: u16, e: u16) -> bool
    ensures { result ≡ rest_of_log_zero (part_word file.now p) blocks e }
{
    (e as u32 * 4..blocks as u32 * 120).all(|k| part_word(file, p, k) == 0)
}

#[tactic(auto, using(base::proofs::Cases::cases), unfolding(crate::specs::Logs::events_fit))]
fn events_fit(file: &[u8], p: Part, blocks: u16, e: u16) -> bool
    ensures { result ≡ events_fit (part_word file.now p) blocks e }
{
    end_fits(blocks, e) && all_fit(file, p, e) && rest_of_log_zero(file, p, blocks, e)
}

// The log behind so many blocks of a scene.
fn log_behind(file: &[u8], scene: u32, blocks: u16) -> Log
    requires { blocks ≤ 128 }
    ensures { result ≡ log_behind file.now scene blocks }
{
    Log {
        scene,
        blocks,
        events: end_in(file, log_part(scene, blocks), blocks * 30),
    }
}

#[tactic(auto, using(base::proofs::Cases::cases), unfolding(crate::specs::Logs::log_fits))]
fn log_fits(file: &[u8], l: Log) -> bool
    ensures { result ≡ log_fits file.now l }
{
    let p = log_part(l.scene, l.blocks);
    part_fits(file, p) && events_fit(file, p, l.blocks, l.events)
}

#[tactic(auto, using(base::proofs::Cases::cases, crate::proofs::Files::cuts), unfolding(crate::specs::Logs::first_blocks, base::specs::Choose::choose))]
fn first_blocks(file: &[u8], count: usize) -> &[u8]
    ensures { result.now ≡ first_blocks file.now count }
{
    if count > 128 {
        return &[];
    }
    &file[..file.len().min(count * 512)]
}

// The scene at a file's start: as many blocks as its counts need.
#[tactic(auto, using(base::proofs::Cases::cases), unfolding(crate::specs::Logs::scene_in, base::specs::Choose::choose))]
pub fn scene_in(file: &[u8]) -> &[u8]
    ensures { result.now ≡ scene_in file.now }
{
    match files::counts_within(file) {
        Err(_) => &[],
        Ok(n) => first_blocks(file, files::blocks_for(n)),
    }
}

// What is left to ask of a file whose scene has so many blocks.
#[tactic(auto, using(base::proofs::Cases::cases), unfolding(crate::specs::Logs::whole_log, base::specs::Choose::choose))]
fn log_in(file: &[u8], scene: usize) -> Result<Log, Refusal>
    requires { scene * 512 ≤ length file.now }
    ensures { asked result ≡ choose (whole_log file.now (log_from file.now scene)) (found (log_from file.now scene)) (refused 8) }
{
    let blocks = file.len() / 512;
    if blocks > 128 || file.len() % 512 != 0 {
        return Err(Refusal::Malformed);
    }
    let l = log_behind(file, scene as u32, (blocks - scene) as u16);
    if log_fits(file, l) {
        Ok(l)
    } else {
        Err(Refusal::Malformed)
    }
}

/// The log in a file. Where the file is no log the answer is `Malformed`.
#[tactic(auto, using(base::proofs::Cases::cases, crate::proofs::Files::most), unfolding(crate::specs::Logs::is_log, base::specs::Choose::choose))]
pub fn log_of(file: &[u8]) -> Result<Log, Refusal>
    ensures { asked result ≡ choose (is_log file.now) (found (log_of file.now)) (refused 8) }
{
    let scene = scene_in(file);
    if files::is_scene(scene) {
        log_in(file, scene.len() / 512)
    } else {
        Err(Refusal::Malformed)
    }
}

fn set_of(position: u32, state: u32) -> CellSet
    ensures { result ≡ set_of position state }
{
    CellSet {
        x: position % 256,
        y: position / 256 % 256,
        z: position / 65536 % 256,
        state,
    }
}

// Event i of a log.
#[tactic(auto, using(base::proofs::Cases::cases), unfolding(crate::specs::Logs::event_at, base::specs::Choose::choose))]
pub fn event_at(file: &[u8], l: Log, i: u16) -> Event
    ensures { result ≡ event_at (log_word file.now l.scene l.blocks) i }
{
    let p = log_part(l.scene, l.blocks);
    if number_at(file, p, i) == 1 {
        Event::Tick
    } else {
        Event::Set(set_of(event_word(file, p, i, 1), event_word(file, p, i, 2)))
    }
}

// The log cut behind its first so many events.
pub fn first_of(l: Log, events: u16) -> Log
    ensures { result ≡ first_of l events }
{
    Log {
        events: events.min(l.events),
        ..l
    }
}
