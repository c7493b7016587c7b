// A motion, a body and rules out of lent numbers and words, in document 01's order, and what is refused of these.
ghost use Rattle.std.specs.Prelude.{◌≡◌};
ghost use Rattle.base.specs.Refusals.{verdict};
ghost use Rattle.tables.specs.Tables.{word_at};
ghost use Rattle.bodies.specs.Numbers.{number_at, vec_from, motion_from, body_from, rules_from, lengths_fit};
ghost use Rattle.bodies.specs.Lent.{body_refusal};

use crate::{BodyNumbers, MotionNumbers, Rules};
use base::Refusal;
use boxes::Vec3;
use tables::{Tables, word};

// Whether there are as many numbers and words as a body's.
pub fn lengths_fit(numbers: &[f64], words: &[u32]) -> bool
    ensures { result ≡ lengths_fit numbers.now words.now }
{
    (numbers.len() == 19) & (words.len() == 7)
}

// Number i, +0 where there is none.
pub fn number_at(numbers: &[f64], i: usize) -> f64
    ensures { result ≡ number_at numbers.now i }
{
    if i < numbers.len() { numbers[i] } else { 0.0 }
}

pub fn vec_from(numbers: &[f64], i: u32) -> Vec3
    ensures { result ≡ vec_from (number_at numbers.now) i }
{
    let k = i as usize;
    Vec3 {
        x: number_at(numbers, k),
        y: number_at(numbers, k + 1),
        z: number_at(numbers, k + 2),
    }
}

pub fn motion_from(numbers: &[f64], words: &[u32]) -> MotionNumbers
    ensures { result ≡ motion_from (number_at numbers.now) (word_at words.now 0) }
{
    MotionNumbers {
        feet: vec_from(numbers, 0),
        velocity: vec_from(numbers, 3),
        on_ground: word(words, 0, 0),
    }
}

pub fn body_from(numbers: &[f64], words: &[u32]) -> BodyNumbers
    ensures { result ≡ body_from (number_at numbers.now) (word_at words.now 0) }
{
    BodyNumbers {
        width: number_at(numbers, 6),
        height: number_at(numbers, 7),
        offset: number_at(numbers, 8),
        gravity: number_at(numbers, 9),
        vertical: number_at(numbers, 10),
        horizontal: number_at(numbers, 11),
        flap: number_at(numbers, 12),
        step: number_at(numbers, 13),
        model: word(words, 0, 1),
        stage: word(words, 0, 2),
        friction: word(words, 0, 3),
        flaps: word(words, 0, 4),
    }
}

pub fn rules_from(numbers: &[f64], words: &[u32]) -> Rules
    ensures { result ≡ rules_from (number_at numbers.now) (word_at words.now 0) }
{
    Rules {
        friction: number_at(numbers, 14),
        depth: number_at(numbers, 15),
        gravity: number_at(numbers, 16),
        water: number_at(numbers, 17),
        lava: number_at(numbers, 18),
        air: word(words, 0, 5),
        cap: word(words, 0, 6),
    }
}

/// Refused by 3 where there are not as many as a body's; else by 3, then 4, for what they are.
#[tactic(auto, using(base::proofs::Cases::cases), unfolding(crate::specs::Lent::body_refusal))]
pub fn check_body(tables: Tables<'_>, numbers: &[f64], words: &[u32]) -> Result<(), Refusal>
    ensures { verdict result ≡ body_refusal tables.entry.records.now numbers.now words.now }
{
    if !lengths_fit(numbers, words) {
        return Err(Refusal::Number);
    }
    crate::check_numbers(
        tables,
        rules_from(numbers, words),
        body_from(numbers, words),
        motion_from(numbers, words),
    )
}
