// The table check, run: one line for each case with its answer, 0 or 1; what the case is stands beside it. The table is small, and each case
// changes one word or one number of it; the last cases are at the limits of a table.
#![tactic(auto)]

use std::io;
use tables::Tables;

// States: 0 air, 1 a cube, 2 falling water, 3 and 4 a fence, 5 and 6 a wall, 7 a slab, 8 unregistered. A record is 20 words: 0 to 8 what it is, 9 to 18 what it turns to, 19 its full faces.
const RECORDS: [u32; 180] = [
    1, 0x3f19999a, 0, 0, 0, 0, 0, 0, 0, 0, 0, 0, 0, 0, 0, 0, 0, 0, 0, 0, 3, 0x3f19999a, 0, 0, 0, 0,
    0, 0, 1, 0, 0, 0, 0, 0, 0, 0, 0, 0, 0, 15, 1, 0x3f19999a, 1, 8, 0, 0, 0, 0, 0, 0, 0, 0, 0, 0,
    0, 0, 0, 0, 0, 0, 3, 0x3f19999a, 0, 0, 1, 0, 0, 1, 1, 3, 4, 3, 3, 3, 3, 3, 3, 3, 3, 0, 3,
    0x3f19999a, 0, 0, 1, 0, 0, 1, 1, 3, 4, 4, 4, 4, 4, 4, 4, 4, 4, 0, 3, 0x3f19999a, 0, 0, 4, 0, 0,
    2, 1, 5, 5, 5, 5, 5, 5, 5, 5, 5, 6, 0, 3, 0x3f19999a, 0, 0, 4, 0, 1, 2, 1, 6, 6, 6, 6, 6, 6, 6,
    6, 5, 6, 0, 3, 0x3f19999a, 0, 0, 0, 0, 0, 3, 1, 0, 0, 0, 0, 0, 0, 0, 0, 0, 0, 0, 0, 0, 0, 0, 0,
    0, 0, 0, 0, 0, 0, 0, 0, 0, 0, 0, 0, 0, 0, 0,
];

// The cube, the fence's post, the wall's, the slab, and a flat box that no record uses.
const SHAPES: [f32; 30] = [
    0.0, 0.0, 0.0, 1.0, 1.0, 1.0, 0.375, 0.0, 0.375, 0.625, 1.5, 0.625, 0.25, 0.0, 0.25, 0.75, 1.5,
    0.75, 0.0, 0.0, 0.0, 1.0, 0.5, 1.0, -4.0, -4.0, -4.0, 4.0, -4.0, 4.0,
];

// ---- the cases: each by its number from 1 on

// A state, a word of its record, and the value that it gets.
type Word = (u8, u8, u32);

// Words 0 to 6 of a record.
const WORDS: [Word; 19] = [
    (0, 0, 1), // the table as it is
    (0, 0, 5), // word 0 with a third bit
    (0, 1, 0x4180_0000), // friction 16
    (0, 1, 0xc180_0000), // friction -16
    (0, 1, 0x8000_0000), // friction -0
    (0, 1, 0x4180_0001), // friction just over 16
    (0, 1, 0xc180_0001), // friction just under -16
    (0, 1, 0x7f80_0000), // friction infinite
    (0, 1, 0x7fc0_0000), // friction a NaN
    (2, 2, 2), // liquid lava
    (2, 2, 3), // liquid 3
    (2, 3, 15), // depth 15
    (2, 3, 16), // depth 16
    (0, 3, 1), // depth of no liquid
    (3, 4, 5), // connects as 5
    (3, 5, 2), // gate that connects
    (7, 5, 3), // gate 3
    (7, 6, 5), // post facing west
    (7, 6, 6), // post 6
];

// Words 7, 8 and 19.
const PARTS: [Word; 11] = [
    (0, 7, 5), // first box 5 of 5 boxes, none counted
    (0, 7, 6), // first box 6 of 5 boxes, none counted
    (7, 8, 2), // boxes up to the last
    (7, 8, 3), // boxes past the last
    (1, 7, 4294967295), // first box and count that wrap
    (1, 19, 14), // a cube without its north face
    (1, 19, 13), // a cube without its east face
    (1, 19, 11), // a cube without its south face
    (1, 19, 7), // a cube without its west face
    (1, 19, 31), // a cube with a fifth face
    (7, 19, 1), // a slab with a north face
];

// Words 9 to 18.
const LINKS: [Word; 13] = [
    (3, 9, 4), // a fence's north to a fence
    (3, 9, 5), // a fence's north to a wall
    (3, 9, 1), // a fence's north to what connects as nothing
    (3, 9, 8), // a fence's north to an unregistered record
    (3, 9, 9), // a fence's north to no record
    (3, 16, 5), // a fence's west to a wall
    (3, 17, 4), // a fence's post off to a fence
    (3, 18, 4), // a fence's post on to a fence
    (5, 17, 6), // a wall's post off to a wall
    (5, 18, 3), // a wall's post on to a fence
    (3, 4, 2), // a fence that connects as the other fence
    (1, 9, 1), // a cube with a transition
    (1, 18, 1), // a cube with a post
];

// A record that is not registered.
const UNREGISTERED: [Word; 6] = [
    (8, 0, 2), // unregistered and blocking motion
    (8, 1, 0x8000_0000), // unregistered with friction -0
    (8, 2, 1), // unregistered with a liquid
    (8, 6, 1), // unregistered with a post rule
    (8, 7, 1), // unregistered with a first box
    (1, 0, 2), // a cube no longer registered
];

// A number of the boxes and its value; 24 to 29 are those of the unused one.
const NUMBERS: [(usize, f32); 11] = [
    (27, 4.0000005), // a number just over 4
    (24, -4.0000005), // a number just under -4
    (28, f32::INFINITY), // a number infinite
    (29, f32::NAN), // a number a NaN
    (8, f32::NAN), // a used number a NaN
    (6, 1.0), // x from 1 to 0.625
    (7, 2.0), // y from 2 to 1.5
    (8, 1.0), // z from 1 to 0.625
    (25, 4.0), // y of the unused box from 4 to -4
    (7, 1.5), // a flat box
    (23, -0.0), // z from 0 to -0
];

// How many words and numbers are lent: records and boxes that come whole.
const COUNTS: [(usize, usize); 6] = [
    (0, 30), // no state
    (20, 0), // one state and no box
    (179, 30), // a word short
    (21, 30), // a word over
    (20, 29), // a number short
    (20, 24), // a box short
];

// How many states and boxes the large table has, and how many of these its first state has.
const LARGE: [(u16, u16, u32); 6] = [
    (4096, 16384, 4), // 4096 states and 16384 boxes
    (4097, 16384, 4), // 4097 states
    (4096, 16385, 4), // 16385 boxes
    (4096, 16384, 16), // 16 boxes for one state
    (4096, 16384, 17), // 17 boxes for one state
    (4096, 16383, 4), // a state's last box cut off
];

// ---- what is run

fn say(rt: &impl Print, what: &str, case: u8, records: &[u32], shapes: &[f32]) -> io::Result<()> {
    let answer = table_check::check_tables(Tables { records, shapes });
    runs::say(rt, what, case, runs::told(&answer))
}

// The table with one word of a state changed.
fn with_word((state, k, value): Word) -> [u32; 180] {
    let mut records = RECORDS;
    if let Some(word) = records.get_mut(usize::from(state) * 20 + usize::from(k)) {
        *word = value;
    }
    records
}

fn words(rt: &impl Print, first: u8, cases: &[Word]) -> io::Result<()> {
    for (case, &changed) in (first..).zip(cases) {
        say(rt, "record", case, &with_word(changed), &SHAPES)?;
    }
    Ok(())
}

// The table with one number of its boxes changed.
fn numbers(rt: &impl Print) -> io::Result<()> {
    for (case, (i, value)) in (1..).zip(NUMBERS) {
        let mut shapes = SHAPES;
        if let Some(number) = shapes.get_mut(i) {
            *number = value;
        }
        say(rt, "box number", case, &RECORDS, &shapes)?;
    }
    Ok(())
}

fn counts(rt: &impl Print) -> io::Result<()> {
    for (case, (words, numbers)) in (1..).zip(COUNTS) {
        let records = runs::first(&RECORDS, words);
        say(rt, "count", case, records, runs::first(&SHAPES, numbers))?;
    }
    Ok(())
}

// Word i of the large table: each state has four cubes, but the first has as many as asked.
fn large_word(i: usize, boxes: u32) -> u32 {
    if i == 8 {
        return boxes;
    }
    match i % 20 {
        0 => 3,
        7 => ((i / 20) % 4096 * 4) as u32,
        8 => 4,
        19 => 15,
        _ => 0,
    }
}

// The large table: room for 4,097 states and 16,385 boxes, each box the cube, of which the first are checked.
fn large(rt: &impl Print) -> io::Result<()> {
    let mut shapes = [0.0f32; 98310];
    for (i, number) in shapes.iter_mut().enumerate() {
        *number = if i % 6 < 3 { 0.0 } else { 1.0 };
    }
    for (case, (states, count, boxes)) in (1..).zip(LARGE) {
        let mut records = [0u32; 81940];
        for (i, word) in records.iter_mut().enumerate() {
            *word = large_word(i, boxes);
        }
        let records = runs::first(&records, usize::from(states) * 20);
        let shapes = runs::first(&shapes, usize::from(count) * 6);
        say(rt, "large table", case, records, shapes)?;
    }
    Ok(())
}

fn main(rt: HostRuntime) -> io::Result<()> {
    words(&rt, 1, &WORDS)?;
    words(&rt, 20, &PARTS)?;
    words(&rt, 31, &LINKS)?;
    words(&rt, 44, &UNREGISTERED)?;
    numbers(&rt)?;
    counts(&rt)?;
    large(&rt)
}
