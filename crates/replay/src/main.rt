// Runs stored calls, one to a line of standard input, and writes each with our answer. Its stdout holds the original Rust's answers
// (docs/VECTORS.md), so that a bit of difference anywhere fails the gate.
#![tactic(auto)]

mod cases;
mod fallen;
mod names;
mod numbers;
mod scenes;
mod shapes;
mod spelling;
mod stored_minutes;
mod stored_moves;

ghost use Rattle.std.specs.Prelude.{◌≡◌, length};

use spelling::Line;
use std::io;

fn answer(rt: &impl Print, line: Line<'_>) -> io::Result<()> {
    match line.call() {
        b"movelist" => stored_moves::run(rt, line),
        b"ident" => names::ident(rt, line),
        b"post" => names::post(rt, line),
        b"cover" => shapes::run(rt, line),
        b"fall" => fallen::run(rt, line),
        _ => numbers::run(rt, line),
    }
}

// Each line of the calls, in order, 65,536 at most: the call as it stands, and the answer after an arrow.
fn run_calls(rt: &impl Print, calls: &[u8]) -> io::Result<()> {
    for line in calls.split_inclusive(|byte| *byte == b'\n').take(65536) {
        let line = line.strip_suffix(b"\n").unwrap_or(line);
        rt.write_all(line)?;
        print!(rt; " => ")?;
        answer(rt, Line(line))?;
        println!(rt;)?;
    }
    Ok(())
}

// Room for all the calls. The `ensures` gives the length, which lending the array as a slice needs.
fn room() -> [u8; 1048576]
    ensures { 1048576 ≡ length result }
{
    [0; 1048576]
}

fn main(rt: HostRuntime) -> io::Result<()> {
    let mut space = room();
    let size = reading::read_full(&mut rt.reader(), &mut space)?;
    run_calls(&rt, &space[..size])?;
    scenes::run_all(&rt)?;
    fallen::run_scenes(&rt)?;
    stored_minutes::run_all(&rt)
}
