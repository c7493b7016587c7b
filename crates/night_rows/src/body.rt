// A body, read out of its row.
ghost use Rattle.std.specs.Prelude.{◌≡◌, drop};
ghost use Rattle.night_rows.specs.Rows.{row_seen, is_whole, named_in, cap_in, given_in, body_in, rules_in, fall_in, age_in};

use crate::{NUMBER_WIDTH, OLDER_CAP};
use bodies::{BodyNumbers, MotionNumbers, Rules};
use fall_rule::Fall;
use tables::word;

/// A body's row: its numbers and words, `older` where it is an older caller's, who names no cap.
#[derive(Clone, Copy)]
pub struct BodyRow<'a> {
    pub older: bool,
    pub numbers: &'a [f64],
    pub words: &'a [u32],
}

impl<'a> BodyRow<'a> {
    /// The words behind the number of its window and its age.
    pub fn scene_words(self) -> &'a [u32]
        ensures { result.now ≡ drop 3 self.entry.words.now }
    {
        &self.words[self.words.len().min(3)..]
    }

    #[tactic(auto, using(base::proofs::Cases::cases), unfolding(crate::specs::Rows::is_whole))]
    pub fn is_whole(self) -> bool
        ensures { result ≡ is_whole (row_seen self.entry) }
    {
        self.numbers.len() == NUMBER_WIDTH && self.words.len() == crate::word_width(self.older)
    }

    /// The number of its window.
    pub fn named(self) -> u32
        ensures { result ≡ named_in (row_seen self.entry) }
    {
        word(self.words, 0, 0)
    }

    // Its cap: an older row stands for 128.
    #[tactic(auto, using(base::proofs::Cases::cases), unfolding(crate::specs::Rows::cap_in, base::specs::Choose::choose))]
    fn cap(self) -> u32
        ensures { result ≡ cap_in (row_seen self.entry) }
    {
        if self.older {
            return OLDER_CAP;
        }
        word(self.scene_words(), 0, 6)
    }

    pub fn rules(self) -> Rules
        ensures { result ≡ rules_in (row_seen self.entry) }
    {
        bodies::rules_from(self.numbers, self.scene_words()).with_cap(self.cap())
    }

    pub fn body(self) -> BodyNumbers
        ensures { result ≡ body_in (row_seen self.entry) }
    {
        bodies::body_from(self.numbers, self.scene_words())
    }

    pub fn given(self) -> MotionNumbers
        ensures { result ≡ given_in (row_seen self.entry) }
    {
        bodies::motion_from(self.numbers, self.scene_words())
    }

    pub fn fall(self) -> Fall
        ensures { result ≡ fall_in (row_seen self.entry) }
    {
        Fall {
            sum: bodies::number_at(self.numbers, 19),
            landed: bodies::number_at(self.numbers, 20),
        }
    }

    /// Its age in ticks.
    pub fn age(self) -> u64
        ensures { result ≡ age_in (row_seen self.entry) }
    {
        lent_words::join(word(self.words, 0, 1), word(self.words, 0, 2))
    }
}
