// The words of a body as they are written, in the places that `files` has for them.
#![tactic(auto)]

ghost use Rattle.std.specs.Prelude.{◌≡◌};
ghost use Rattle.base.specs.Loop.{listed};
ghost use Rattle.body_words.specs.Words.{is_absent, written_number, word_of_wide, body_word_of};

use files::{Counts, places};

// Whether number k is that of a flap that is not present.
#[tactic(auto, unfolding(crate::specs::Words::is_absent))]
fn is_absent(words: &[u32], k: u32) -> bool
    ensures { result ≡ is_absent words.now k }
{
    (k == places::FLAP) & (block_writer::word_in(words, places::PRESENT as usize) == 0)
}

// Number k as it is written: the flap's is zero where none is present.
#[tactic(auto, using(base::proofs::Cases::cases), unfolding(crate::specs::Words::written_number, base::specs::Choose::choose))]
fn written_number(numbers: &[f64], words: &[u32], k: u32) -> f64
    ensures { result ≡ written_number numbers.now words.now k }
{
    if is_absent(words, k) {
        return 0.0;
    }
    bodies::number_at(numbers, k as usize)
}

// The low word of a number, and at 1 the high one.
#[tactic(auto, using(base::proofs::Cases::cases), unfolding(crate::specs::Words::word_of_wide, base::specs::Choose::choose))]
fn word_of_wide(n: u64, j: u32) -> u32
    ensures { result ≡ word_of_wide n j }
{
    if j == 0 {
        return lent_words::low_of(n);
    }
    lent_words::high_of(n)
}

// Payload word i: numbers, age, words, state count, box count, and the cap as it was given.
#[tactic(auto, using(base::proofs::Cases::cases), unfolding(crate::specs::Words::body_word_of, base::specs::Choose::choose))]
fn body_word_of(numbers: &[f64], words: &[u32], age: u64, n: Counts, i: u32) -> u32
    ensures { result ≡ body_word_of numbers.now words.now age n i }
{
    if i < places::AGE {
        let x = written_number(numbers, words, i / places::WIDE);
        return word_of_wide(floats::bits_of_float(x), i % places::WIDE);
    }
    if i < places::WORDS {
        return word_of_wide(age, i - places::AGE);
    }
    if i < places::STATES {
        return block_writer::word_in(words, (i - places::WORDS) as usize);
    }
    if i == places::STATES {
        return n.states as u32;
    }
    if i == places::BOXES {
        return n.boxes as u32;
    }
    block_writer::word_in(words, places::CAP as usize)
}

pub fn body_words(numbers: &[f64], words: &[u32], age: u64, n: Counts) -> [u32; 49]
    ensures { result ≡ listed (body_word_of numbers.now words.now age n) 49 0 }
{
    let mut body = [0; 49];
    for i in 0..49u32 {
        body[i as usize] = body_word_of(numbers, words, age, n, i);
    }
    body
}
