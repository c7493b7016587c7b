// The numbers of a scene's body: 19 numbers, 7 words and its age. Which is which is for `bodies` to say.
ghost use Rattle.std.specs.Prelude.{◌≡◌};
ghost use Rattle.files.specs.Contents.{numbers_in, body_float, late_words, body_age};

use files::{body_word, places};
use lent_words::join;

// Number k of the body's f64.
fn body_float(file: &[u8], k: u8) -> f64
    ensures { result ≡ body_float file.now k }
{
    let i = k as u32 * places::WIDE;
    let low = body_word(file, i);
    let high = body_word(file, i + 1);
    floats::float_of_bits(join(low, high))
}

pub fn numbers_in(file: &[u8]) -> [f64; 19]
    ensures { result ≡ numbers_in file.now }
{
    let mut numbers = [0.0; 19];
    for k in 0..19u8 {
        numbers[k as usize] = body_float(file, k);
    }
    numbers
}

// The words behind the numbers and the age; the last of them is the cap, behind the two counts.
pub fn words_in(file: &[u8]) -> [u32; 7]
    ensures { result ≡ late_words file.now }
{
    let mut words = [0; 7];
    for k in 0..7u8 {
        let i = k as u32;
        words[k as usize] = body_word(file, places::WORDS + i + i / places::CAP * places::COUNTS);
    }
    words
}

pub fn body_age(file: &[u8]) -> u64
    ensures { result ≡ body_age file.now }
{
    let low = body_word(file, places::AGE);
    let high = body_word(file, places::AGE + 1);
    join(low, high)
}
