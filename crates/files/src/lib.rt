// Which files are scenes, and what a scene says of its own parts: its counts, and its window. places.rt says where a body's words stand.
#![tactic(auto)]

pub mod places;

ghost use Rattle.std.specs.Prelude.{◌≡◌};
ghost use Rattle.base.specs.Choose.{choose};
ghost use Rattle.base.specs.Ask.{refused, found};
ghost use Rattle.base.specs.Refusals.{asked};
ghost use Rattle.blocks.specs.Blocks.{window_part};
ghost use Rattle.files.specs.Files.{body_word, flap_fits, window_in, counts_fit, counts_of, parts_fit, blocks_for, blocks_fit, is_scene};

use base::Refusal;
use blocks::{
    Part, body_part, box_part, cell_part, end_of, part_fits, part_word, record_part, window_part,
};
use window::Window;

// How many states, boxes and cells a scene has.
#[derive(Clone, Copy)]
pub struct Counts {
    pub states: u16,
    pub boxes: u16,
    pub cells: u32,
}

// Payload word i of the body.
pub fn body_word(file: &[u8], i: u32) -> u32
    ensures { result ≡ body_word file.now i }
{
    part_word(file, body_part(), i)
}

// Both flap words are zero where no flap is present.
#[tactic(auto, using(base::proofs::Cases::cases), unfolding(crate::specs::Files::flap_fits))]
fn flap_fits(file: &[u8]) -> bool
    ensures { result ≡ flap_fits file.now }
{
    body_word(file, places::PRESENT_AT) != 0
        || body_word(file, places::FLAP_LOW) == 0 && body_word(file, places::FLAP_HIGH) == 0
}

#[tactic(auto, unfolding(crate::specs::Files::window_in))]
fn window_at(file: &[u8], p: Part) -> Window
    ensures { result ≡ window_in file.now p }
{
    lent_words::window_from(
        part_word(file, p, 0),
        part_word(file, p, 1),
        part_word(file, p, 2),
        part_word(file, p, 3),
        part_word(file, p, 4),
        part_word(file, p, 5),
        part_word(file, p, 6),
        part_word(file, p, 7),
        body_word(file, places::AIR_AT),
    )
}

/// State count, box count and the number of cells. Where one is beyond its limit the answer is `Malformed`.
#[tactic(auto, using(base::proofs::Cases::cases, crate::proofs::Scenes::small), unfolding(crate::specs::Files::counts_fit, crate::specs::Files::sizes_in, crate::specs::Files::counts_in, base::specs::Choose::choose))]
pub fn counts_within(file: &[u8]) -> Result<Counts, Refusal>
    ensures { asked result ≡ choose (counts_fit file.now) (found (counts_of file.now)) (refused 8) }
{
    let states = body_word(file, places::STATES);
    let boxes = body_word(file, places::BOXES);
    if states < 1 || states > 4096 || boxes > 16384 {
        return Err(Refusal::Malformed);
    }
    let s = window_at(file, window_part(states as u16, boxes as u16)).sizes;
    if !window_check::sizes_fit(s) {
        return Err(Refusal::Malformed);
    }
    Ok(Counts {
        states: states as u16,
        boxes: boxes as u16,
        cells: s.x * s.y * s.z + s.x * s.z,
    })
}

// Each block as its part has it.
#[tactic(auto, using(base::proofs::Cases::cases), unfolding(crate::specs::Files::parts_fit))]
fn parts_fit(file: &[u8], n: Counts) -> bool
    ensures { result ≡ parts_fit file.now n }
{
    part_fits(file, body_part())
        && part_fits(file, record_part(n.states))
        && part_fits(file, box_part(n.states, n.boxes))
        && part_fits(file, window_part(n.states, n.boxes))
        && part_fits(file, cell_part(n.states, n.boxes, n.cells))
}

// How many blocks the counts need.
pub fn blocks_for(n: Counts) -> usize
    ensures { result ≡ blocks_for n }
{
    end_of(cell_part(n.states, n.boxes, n.cells))
}

#[tactic(auto, using(base::proofs::Cases::cases), unfolding(crate::specs::Files::blocks_fit))]
fn blocks_fit(file: &[u8], n: Counts) -> bool
    ensures { result ≡ blocks_fit file.now n }
{
    let blocks = blocks_for(n);
    blocks <= 128 && file.len() == blocks * 512 && parts_fit(file, n)
}

/// The counts of a scene. Where the file is no scene the answer is `Malformed`.
#[tactic(auto, using(base::proofs::Cases::cases), unfolding(crate::specs::Files::is_scene, base::specs::Choose::choose))]
pub fn counts_of(file: &[u8]) -> Result<Counts, Refusal>
    ensures { asked result ≡ choose (is_scene file.now) (found (counts_of file.now)) (refused 8) }
{
    let n = counts_within(file)?;
    if flap_fits(file) && blocks_fit(file, n) {
        Ok(n)
    } else {
        Err(Refusal::Malformed)
    }
}

#[tactic(auto, using(base::proofs::Cases::cases), unfolding(base::specs::Choose::choose))]
pub fn is_scene(file: &[u8]) -> bool
    ensures { result ≡ is_scene file.now }
{
    counts_of(file).is_ok()
}

// The window of a file with these counts.
pub fn window_in(file: &[u8], n: Counts) -> Window
    ensures { result ≡ window_in file.now (window_part n.states n.boxes) }
{
    window_at(file, window_part(n.states, n.boxes))
}
