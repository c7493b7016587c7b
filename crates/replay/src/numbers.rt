// The calls of module 1.
use crate::spelling::{Bits, Line};
use std::io;

pub(crate) fn run(rt: &impl Print, line: Line<'_>) -> io::Result<()> {
    let x = line.float(1);
    let answer = match line.call() {
        b"floor" => wholes::floor(x),
        b"ceil" => wholes::ceil(x),
        b"sqrt" => roots::sqrt(x),
        b"size" => floats::size(x),
        b"least" => floats::least(x, line.float(2)),
        _ => floats::greatest(x, line.float(2)),
    };
    match answer {
        Ok(value) => print!(rt; "{}", Bits(value)),
        Err(refusal) => print!(rt; "{refusal} {}", Bits(0.0)),
    }
}
