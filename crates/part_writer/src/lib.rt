// Writes a part of a scene into a lent buffer: its blocks, byte for byte what `part_bytes` has. Bytes elsewhere keep their values, and where there is
// no room nothing is written.
#![tactic(auto)]

ghost use Rattle.std.specs.Prelude.{◌≡◌, ℕ, ◌+◌, ◌*◌, ◌≤◌, ◌<◌, length};
ghost use Rattle.std.specs.Float.{binary32};
ghost use Rattle.std.specs.Float.Ieee.{to_bits};
ghost use Rattle.base.specs.Loop.{listed, stored};
ghost use Rattle.blocks.specs.Blocks.{used_in};
ghost use Rattle.part_writer.specs.Bytes.{block_bytes, part_room, written_part, word_in, bits_in};

use block_writer::fill_block;
use blocks::Part;

// The part ends within 128 blocks, and within so many bytes.
#[tactic(auto, using(base::proofs::Cases::cases), unfolding(crate::specs::Bytes::part_room))]
fn part_room(size: usize, p: Part) -> bool
    ensures { result ≡ part_room size p }
{
    let end = blocks::end_of(p);
    end <= 128 && end * 512 <= size
}

// The words of one block: those from word `from` on.
fn block_words<F: Fn(usize) -> u32>(word: &F, from: u32) -> [u32; 123]
    requires { F.IsAlwaysCallable word.now }
    ensures { (f : ℕ → ℕ) → ((i w : ℕ) → F.post word.now i w → w ≡ f i) → result ≡ listed (λ k. f (from + k)) 123 0 }
{
    let mut words = [0; 123];
    for k in 0..123 {
        words[k] = word(from as usize + k);
    }
    words
}

// Block j of a part at its place: its payload is the words from word `from` on.
fn put_block(out: &mut [u8], p: Part, j: usize, words: &[u32], from: u32)
    requires { (p.first + j < 128) × ((p.first + j) * 512 + 512 ≤ length out.old) }
    ensures { out.new ≡ stored out.old ((p.first + j) * 512) (block_bytes (p.first + j) p.kind (λ k. word_in words.now (from + k)) (used_in p j)) }
{
    let used = blocks::used_in(p, j);
    let number = p.first as usize + j;
    let at = number * 512;
    fill_block(
        &mut out[at..at + 512],
        number as u32,
        p.kind,
        words,
        from,
        used,
    );
}

// A part at its place, whose word i is what `word` says: the words of a block are put side by side first.
fn put_part<F: Fn(usize) -> u32>(out: &mut [u8], p: Part, word: F)
    requires { F.IsAlwaysCallable word }
    ensures { (f : ℕ → ℕ) → ((i w : ℕ) → F.post word i w → w ≡ f i) → out.new ≡ written_part out.old p f }
{
    if part_room(out.len(), p) {
        let per = blocks::per_block(p.kind);
        for j in 0..blocks::blocks_of(p) {
            put_block(out, p, j, &block_words(&word, j as u32 * per), 0);
        }
    }
}

// A part of these words at its place. They are written from where they lie, and not put side by side first as those of `put_part` are.
pub fn put_words(out: &mut [u8], p: Part, words: &[u32])
    ensures { out.new ≡ written_part out.old p (word_in words.now) }
{
    if part_room(out.len(), p) {
        let per = blocks::per_block(p.kind);
        for j in 0..blocks::blocks_of(p) {
            put_block(out, p, j, words, j as u32 * per);
        }
    }
}

// The bits of an f32; a NaN's are those of one NaN.
fn bits_of_single(x: f32) -> u32
    ensures { result ≡ to_bits binary32 x }
{
    if x != x {
        return 0x7fc0_0000;
    }
    f32::to_bits(x)
}

// The bits of number i; 0 where there is none.
#[tactic(auto, unfolding(crate::specs::Bytes::bits_in, floats::specs::Numbers::zero64))]
fn bits_in(numbers: &[f32], i: usize) -> u32
    ensures { result ≡ bits_in numbers.now i }
{
    bits_of_single(numbers.get(i).copied().unwrap_or(0.0))
}

// A part of the bits of these numbers at its place.
pub fn put_singles(out: &mut [u8], p: Part, numbers: &[f32])
    ensures { out.new ≡ written_part out.old p (bits_in numbers.now) }
{
    put_part(out, p, |i| bits_in(numbers, i));
}
