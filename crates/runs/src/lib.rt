// What the programs that run limits tell their cases with: the number of an answer, the line of a case, and the first of what is lent.
#![tactic(auto)]

ghost use Rattle.std.specs.Prelude.{◌≡◌, take};
ghost use Rattle.base.specs.Refusals.{verdict};

use base::Refusal;
use std::{fmt, io};

/// What a host is told of an answer: 0, or the number of its refusal.
pub fn told<T>(answer: &Result<T, Refusal>) -> u32
    ensures { result ≡ verdict answer.now }
{
    match answer {
        Ok(_) => 0,
        Err(refusal) => refusal.number(),
    }
}

/// The line of a case: what it is a case of, its number, and the answer. No clause can say what is printed.
pub fn say(
    rt: &impl Print,
    what: &str,
    case: u8,
    answer: impl fmt::Display + Drop,
) -> io::Result<()> {
    println!(rt; "{what} {case}: {answer}")
}

/// The first n of them, or all where there are fewer.
pub fn first<T>(all: &[T], n: usize) -> &[T]
    ensures { result.now ≡ take n all.now }
{
    all.get(..n).unwrap_or(all)
}
