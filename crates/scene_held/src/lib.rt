// What a scene holds, put where the program works on it: numbers.rt has the numbers of its body, parts.rt its tables and cells.
#![tactic(auto)]

mod numbers;
mod parts;

pub use numbers::{body_age, numbers_in, words_in};
pub use parts::{held, put_all, put_apart, take_singles, take_words};
