// The logs of data/, by number: each with what `oneminute` prints of it, its lines joined by `; `; then with the fall record after each of its ticks, and
// the refusal that ends it; and what `onetick` prints of each that is a log.
use crate::fallen::Record;
use crate::scenes;
use logs::Event;
use std::io;
use std::rt::Files;

// Numbers for the feet of every tick.
const FEET: usize = 11520;

fn put_printed(rt: &impl Print, file: &[u8]) -> io::Result<()> {
    let mut out = [0; 215050];
    let count = logged::answer(file, &mut out);
    scenes::put_joined(rt, out.get(..count).unwrap_or(&[]))
}

// What parts an answer from the one before it.
fn put_gap(rt: &impl Print, first: bool) -> io::Result<()> {
    if first { Ok(()) } else { rt.print("; ") }
}

// The record after each tick that is not refused, from the log's start on, and the refusal that ends its minute.
fn put_falls(rt: &impl Print, file: &[u8]) -> io::Result<()> {
    let mut feet = [0.0; FEET];
    let mut first = true;
    if let Ok(log) = logs::log_of(file) {
        for i in 0..log.events {
            if let Event::Tick = logs::event_at(file, log, i) {
                let minute = logged::run_first(file, i + 1, &mut feet);
                if minute.ended.is_ok() {
                    put_gap(rt, first)?;
                    print!(rt; "{}", Record(minute.fall))?;
                    first = false;
                }
            }
        }
    }
    if let Err(refusal) = logged::run_log(file, &mut feet).ended {
        put_gap(rt, first)?;
        print!(rt; "{refusal}")?;
    }
    Ok(())
}

fn run(rt: &(impl Files + Print), n: u32) -> io::Result<()> {
    let mut room = [0; 65537];
    let Some(file) = scenes::read(rt, n, *b"log", &mut room)? else {
        return Ok(());
    };
    print!(rt; "minute {n:04} ")?;
    put_printed(rt, file)?;
    print!(rt; "\nfalls {n:04} ")?;
    put_falls(rt, file)?;
    println!(rt;)?;
    // A log is no scene.
    if logs::log_of(file).is_ok() {
        print!(rt; "onetick {n:04} ")?;
        scenes::put_lines(rt, file)?;
        println!(rt;)?;
    }
    Ok(())
}

pub(crate) fn run_all(rt: &(impl Files + Print)) -> io::Result<()> {
    for n in 0..87 {
        run(rt, n)?;
    }
    Ok(())
}
