// A scene's tables and cells, put into arrays of the caller's own.
ghost use Rattle.std.specs.Prelude.{◌≡◌, ◌*◌, min, take, drop, length};
ghost use Rattle.std.specs.Float.Ieee.{of_bits};
ghost use Rattle.std.specs.Float.{binary32};
ghost use Rattle.base.specs.Loop.{listed};
ghost use Rattle.blocks.specs.Blocks.{part_word, record_part, box_part, cell_part};
ghost use Rattle.scene_held.specs.Held.{held_records, held_cells, held_shapes};

use blocks::{Part, box_part, cell_part, part_word, record_part};
use files::Counts;

// How many words there is room for, of so many.
pub fn held(words: u32, room: usize) -> usize
    ensures { result ≡ min words room }
{
    (words as usize).min(room)
}

// Takes the words of a part out of a file, one after the other, as many as there is room for.
pub fn take_words(to: &mut [u32], file: &[u8], p: Part)
    ensures { take (min p.words (length to.old)) to.new ≡ listed (part_word file.now p) (min p.words (length to.old)) 0 }
{
    let n = held(p.words, to.len());
    for i in 0..n {
        to[i] = part_word(file, p, i as u32);
    }
}

fn single_at(file: &[u8], p: Part, i: u32) -> f32
    ensures { result ≡ of_bits binary32 (part_word file.now p i) }
{
    tables::single_of(part_word(file, p, i))
}

// The same words as f32.
pub fn take_singles(to: &mut [f32], file: &[u8], p: Part)
    ensures { take (min p.words (length to.old)) to.new ≡ listed (λ i. of_bits binary32 (part_word file.now p i)) (min p.words (length to.old)) 0 }
{
    let n = held(p.words, to.len());
    for i in 0..n {
        to[i] = single_at(file, p, i as u32);
    }
}

// Puts a scene's records, its cells behind them, and its shapes, each as far as there is room.
pub fn put_all(words: &mut [u32], singles: &mut [f32], file: &[u8], n: Counts)
    ensures words_after { take (held_records n (length words.old)) words.new ≡ listed (part_word file.now (record_part n.states)) (held_records n (length words.old)) 0 }
    ensures words_after_2 { take (held_cells n (length words.old)) (drop (held_records n (length words.old)) words.new) ≡ listed (part_word file.now (cell_part n.states n.boxes n.cells)) (held_cells n (length words.old)) 0 }
    ensures singles_after { take (held_shapes n (length singles.old)) singles.new ≡ listed (λ i. of_bits binary32 (part_word file.now (box_part n.states n.boxes) i)) (held_shapes n (length singles.old)) 0 }
{
    let a = held(n.states as u32 * 20, words.len());
    take_words(words, file, record_part(n.states));
    take_words(&mut words[a..], file, cell_part(n.states, n.boxes, n.cells));
    take_singles(singles, file, box_part(n.states, n.boxes));
}

// Puts a scene's records, shapes and cells into places of their own, each as far as there is room.
pub fn put_apart(
    records: &mut [u32],
    singles: &mut [f32],
    words: &mut [u32],
    file: &[u8],
    n: Counts,
)
    ensures records_after { take (min (n.states * 20) (length records.old)) records.new ≡ listed (part_word file.now (record_part n.states)) (min (n.states * 20) (length records.old)) 0 }
    ensures singles_after { take (min (n.boxes * 6) (length singles.old)) singles.new ≡ listed (λ i. of_bits binary32 (part_word file.now (box_part n.states n.boxes) i)) (min (n.boxes * 6) (length singles.old)) 0 }
    ensures words_after { take (min n.cells (length words.old)) words.new ≡ listed (part_word file.now (cell_part n.states n.boxes n.cells)) (min n.cells (length words.old)) 0 }
{
    take_words(records, file, record_part(n.states));
    take_singles(singles, file, box_part(n.states, n.boxes));
    take_words(words, file, cell_part(n.states, n.boxes, n.cells));
}
