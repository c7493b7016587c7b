// How a scene file is laid out: the parts that its blocks are of. A look-up past the end of a file answers 0.
#![tactic(auto)]

ghost use Rattle.std.specs.Prelude.{◌≡◌, ◌≤◌};
ghost use Rattle.blocks.specs.Blocks.{per_block, blocks_of, end_of, used_in, part_fits, part_word, body_part, record_part, box_part, window_part, cell_part, log_part};

use block_checks::file_word;
use block_rules::{block_fits, block_of, has_new_mark};

// The blocks of one kind, one after the other: the first of them, the kind, and how many payload words there are in all.
#[derive(Clone, Copy)]
pub struct Part {
    pub first: u32,
    // the number that stands in the file: the definitions and the theorems of whole files speak of numbers, and no case of it has a behaviour but its size
    pub kind: u32,
    pub words: u32,
}

// The payload words in use in a full block of this kind.
#[tactic(auto, using(base::proofs::Cases::cases), unfolding(crate::specs::Blocks::per_block))]
pub fn per_block(kind: u32) -> u32
    ensures value { result ≡ per_block kind }
    ensures least { 8 ≤ result }
    ensures most { result ≤ 123 }
{
    match kind {
        1 => 49,
        2 | 3 | 6 => 120,
        4 => 8,
        _ => 123,
    }
}

#[tactic(auto, using(base::proofs::Cases::cases), unfolding(crate::specs::Blocks::blocks_of, base::specs::Choose::choose))]
pub fn blocks_of(p: Part) -> usize
    ensures { result ≡ blocks_of p }
{
    p.words.div_ceil(per_block(p.kind)) as usize
}

// The block after the last.
#[tactic(auto, using(crate::proofs::Parts::few))]
pub fn end_of(p: Part) -> usize
    ensures { result ≡ end_of p }
{
    p.first as usize + blocks_of(p)
}

#[tactic(auto, using(base::proofs::Cases::cases), unfolding(crate::specs::Blocks::used_in, base::specs::Choose::choose))]
pub fn used_in(p: Part, j: usize) -> u32
    ensures { result ≡ used_in p j }
{
    let per = per_block(p.kind);
    if j < (p.words / per) as usize {
        per
    } else {
        p.words % per
    }
}

// Each block of a part is as documents 01 and 02 have it, by the rule of the file's first mark.
pub fn part_fits(file: &[u8], p: Part) -> bool
    ensures { result ≡ part_fits file.now p }
{
    let first = p.first as usize;
    let second = has_new_mark(file, 0);
    (0..blocks_of(p)).all(|j| {
        block_fits(
            second,
            block_of(file, first + j),
            first + j,
            p.kind,
            used_in(p, j),
        )
    })
}

// Word i of a part: 0 where the part has no such word.
#[tactic(auto, using(base::proofs::Cases::cases), unfolding(crate::specs::Blocks::part_word, base::specs::Choose::choose))]
pub fn part_word(file: &[u8], p: Part, i: u32) -> u32
    ensures { result ≡ part_word file.now p i }
{
    if i < p.words {
        let per = per_block(p.kind);
        let b = p.first as usize + (i / per) as usize;
        file_word(block_of(file, b), 3 + i % per)
    } else {
        0
    }
}

pub fn body_part() -> Part
    ensures { result ≡ body_part }
{
    Part {
        first: 0,
        kind: 1,
        words: 49,
    }
}

#[tactic(auto, unfolding(crate::specs::Blocks::per_block, crate::specs::Blocks::blocks_of, base::specs::Choose::choose))]
pub fn record_part(states: u16) -> Part
    ensures { result ≡ record_part states }
{
    Part {
        first: 1,
        kind: 2,
        words: states as u32 * 20,
    }
}

#[tactic(auto, using(crate::proofs::Parts::places))]
pub fn box_part(states: u16, boxes: u16) -> Part
    ensures { result ≡ box_part states boxes }
{
    Part {
        first: end_of(record_part(states)) as u32,
        kind: 3,
        words: boxes as u32 * 6,
    }
}

#[tactic(auto, using(crate::proofs::Parts::places))]
pub fn window_part(states: u16, boxes: u16) -> Part
    ensures { result ≡ window_part states boxes }
{
    Part {
        first: end_of(box_part(states, boxes)) as u32,
        kind: 4,
        words: 8,
    }
}

#[tactic(auto, using(crate::proofs::Parts::places))]
pub fn cell_part(states: u16, boxes: u16, cells: u32) -> Part
    ensures { result ≡ cell_part states boxes cells }
{
    Part {
        first: end_of(window_part(states, boxes)) as u32,
        kind: 5,
        words: cells,
    }
}

// The blocks of a log, behind a scene's.
pub fn log_part(first: u32, blocks: u16) -> Part
    ensures { result ≡ log_part first blocks }
{
    Part {
        first,
        kind: 6,
        words: blocks as u32 * 120,
    }
}
