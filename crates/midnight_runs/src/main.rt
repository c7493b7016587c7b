// The midnight run, run: bad rows among good ones, the same rows in reverse, and calls that are refused whole. A line for each body has its
// refusal, and whether its row has the bits of the single step, or of what was given. The buffer holds 7s before each call. two.rt runs the call
// for two parties.
#![tactic(auto)]

mod rows;
mod two;

use base::Refusal;
use fall_rule::Fall;
use night_rows::{Bodies, Windows};
use std::{array, io};
use step_answers::FallingTick;
use tables::Tables;
use window::View;

// States: 0 air, 1 a cube, 2 a cell of 16 small boxes, 3 water.
const RECORDS: [u32; 80] = [
    1, 0x3f19999a, 0, 0, 0, 0, 0, 0, 0, 0, 0, 0, 0, 0, 0, 0, 0, 0, 0, 0, 3, 0x3f19999a, 0, 0, 0, 0,
    0, 0, 1, 0, 0, 0, 0, 0, 0, 0, 0, 0, 0, 15, 3, 0x3f19999a, 0, 0, 0, 0, 0, 1, 16, 0, 0, 0, 0, 0,
    0, 0, 0, 0, 0, 0, 1, 0x3f19999a, 1, 0, 0, 0, 0, 0, 0, 0, 0, 0, 0, 0, 0, 0, 0, 0, 0, 0,
];

// A cube, and 16 small boxes.
static SHAPES: [f32; 102] = [
    0.0, 0.0, 0.0, 1.0, 1.0, 1.0, 0.25, 0.25, 0.25, 0.5, 0.5, 0.5, 0.25, 0.25, 0.25, 0.5, 0.5, 0.5,
    0.25, 0.25, 0.25, 0.5, 0.5, 0.5, 0.25, 0.25, 0.25, 0.5, 0.5, 0.5, 0.25, 0.25, 0.25, 0.5, 0.5,
    0.5, 0.25, 0.25, 0.25, 0.5, 0.5, 0.5, 0.25, 0.25, 0.25, 0.5, 0.5, 0.5, 0.25, 0.25, 0.25, 0.5,
    0.5, 0.5, 0.25, 0.25, 0.25, 0.5, 0.5, 0.5, 0.25, 0.25, 0.25, 0.5, 0.5, 0.5, 0.25, 0.25, 0.25,
    0.5, 0.5, 0.5, 0.25, 0.25, 0.25, 0.5, 0.5, 0.5, 0.25, 0.25, 0.25, 0.5, 0.5, 0.5, 0.25, 0.25,
    0.25, 0.5, 0.5, 0.5, 0.25, 0.25, 0.25, 0.5, 0.5, 0.5, 0.25, 0.25, 0.25, 0.5, 0.5, 0.5,
];

// Two windows of 2 by 4 by 2; one whose lowest cell is over its highest; one whose words are not there whole; 4 by 4 by 4; 3 by 3 by 3.
static WINDOWS: [[u32; 10]; 6] = [
    [0, 0xffffffff, 0, 2, 4, 2, 0xffffffc0, 319, 0, 20],
    [0, 0xffffffff, 0, 2, 4, 2, 0xffffffc0, 319, 20, 20],
    [0, 0xffffffff, 0, 2, 4, 2, 319, 0xffffffc0, 0, 20],
    [0, 0xffffffff, 0, 2, 4, 2, 0xffffffc0, 319, 150, 20],
    [0, 0, 0, 4, 4, 4, 0xffffffc0, 319, 40, 80],
    [0, 0, 0, 3, 3, 3, 0xffffffc0, 319, 120, 36],
];

// Cubes at y 0 and below, or at y -1 alone; small boxes everywhere; water in the middle of cubes, with a state without a record to its north. Every
// column is loaded.
static CELLS: [u32; 156] = [
    1, 1, 1, 1, 1, 1, 1, 1, 0, 0, 0, 0, 0, 0, 0, 0, 1, 1, 1, 1, 1, 1, 1, 1, 0, 0, 0, 0, 0, 0, 0, 0,
    0, 0, 0, 0, 1, 1, 1, 1, 2, 2, 2, 2, 2, 2, 2, 2, 2, 2, 2, 2, 2, 2, 2, 2, 2, 2, 2, 2, 2, 2, 2, 2,
    2, 2, 2, 2, 2, 2, 2, 2, 2, 2, 2, 2, 2, 2, 2, 2, 2, 2, 2, 2, 2, 2, 2, 2, 2, 2, 2, 2, 2, 2, 2, 2,
    2, 2, 2, 2, 2, 2, 2, 2, 1, 1, 1, 1, 1, 1, 1, 1, 1, 1, 1, 1, 1, 1, 1, 1, 1, 1, 1, 1, 1, 1, 1, 1,
    1, 1, 9, 1, 1, 3, 1, 1, 1, 1, 1, 1, 1, 1, 1, 1, 1, 1, 1, 1, 1, 1, 1, 1, 1, 1, 1, 1,
];

// ---- lent numbers

// The records with this word 19 of the cube: 15 is right.
fn records(faces: u32) -> [u32; 80] {
    let mut records = RECORDS;
    records[39] = faces;
    records
}

// Whether two parts are as long and have the same bits.
fn alike(a: &[f64], b: &[f64]) -> bool {
    a.len() == b.len()
        && a.iter().zip(b).all(|(x, y)| floats::bits_of_float(*x) == floats::bits_of_float(*y))
}

fn is_kept(out: &[f64]) -> bool {
    out.iter().all(|x| *x == 7.0)
}

fn written(out: &[f64]) -> &'static str {
    if is_kept(out) {
        "nothing written"
    } else {
        "written"
    }
}

// The refusal that a row begins with; 99 for a number that is none.
fn refusal_of(row: &[f64; 13]) -> u32 {
    (0..15).find(|n| f64::from(*n) == row[0]).unwrap_or(99)
}

// ---- one body

// The fall record of a row.
fn fall_of(numbers: &[f64; 21]) -> Fall {
    Fall {
        sum: numbers[19],
        landed: numbers[20],
    }
}

// The single step of a row in a window.
fn alone(numbers: &[f64; 21], words: &[u32; 9], window: [u32; 10]) -> Result<FallingTick, Refusal> {
    let [ox, oy, oz, sx, sy, sz, lowest, highest, first, count] = window;
    let view = View {
        words: night_rows::part_of(&CELLS, first as usize, count as usize),
        window: lent_words::window_from(ox, oy, oz, sx, sy, sz, lowest, highest, 0),
    };
    let tables = Tables {
        records: &RECORDS,
        shapes: &SHAPES,
    };
    let late = &words[3..];
    let rules = bodies::rules_from(numbers, late).with_cap(128); // an older caller's row
    let body = bodies::body_from(numbers, late);
    let given = bodies::motion_from(numbers, late);
    falls::step_falling(tables, view, rules, body, given, 0, fall_of(numbers))
}

// Whether a row of the buffer is the single step's answer.
fn is_alone(row: &[f64; 13], numbers: &[f64; 21], words: &[u32; 9]) -> bool {
    let Some(window) = WINDOWS.get(words[0] as usize) else {
        return false;
    };
    let answer = alone(numbers, words, *window);
    let given = bodies::motion_from(numbers, &words[3..]);
    let mut want = [0.0; 12];
    lent_steps::put_falling(&mut want, given, fall_of(numbers), answer);
    refusal_of(row) == runs::told(&answer) && alike(&row[1..], &want)
}

// Whether a row of the buffer has the motion and the fall record that were given, no liquid, and no sample.
fn is_given(row: &[f64; 13], numbers: &[f64; 21], words: &[u32; 9]) -> bool {
    alike(&row[1..7], &numbers[..6])
        && alike(&row[9..11], &numbers[19..])
        && row[7] == f64::from(words[3])
        && row[8] == 0.0
        && row[11] == 0.0
}

// ---- 13 bodies, of which the last lacks its last number

fn lent(rows: &[[u32; 10]], count: u32) -> Windows<'_> {
    Windows {
        rows: rows.as_flattened(),
        count,
        cells: &CELLS,
    }
}

fn thirteen(rt: &impl Print) -> io::Result<()> {
    let tables = Tables {
        records: &RECORDS,
        shapes: &SHAPES,
    };
    let numbers: [_; 13] = array::from_fn(|row| rows::numbers(row, false));
    let words: [_; 13] = array::from_fn(|row| rows::words(row, false));
    let bodies = Bodies {
        older: true,
        numbers: runs::first(numbers.as_flattened(), 272),
        words: words.as_flattened(),
        count: 13,
    };
    let mut out = [7.0; 172];
    let answer = midnight::run(tables, lent(&WINDOWS, 6), bodies, &mut out);
    println!(rt; "13 bodies over 6 windows: refusal {}", runs::told(&answer))?;
    let (told, beyond) = out.as_chunks::<13>();
    for (i, ((row, numbers), words)) in told.iter().zip(&numbers).zip(&words).enumerate() {
        let refusal = refusal_of(row);
        let as_alone = if is_alone(row, numbers, words) {
            ", as alone"
        } else {
            ""
        };
        let as_given = if is_given(row, numbers, words) {
            ", as given"
        } else {
            ""
        };
        println!(rt; "body {i}: refusal {refusal}{as_alone}{as_given}")?;
    }
    println!(rt; "beyond the last row: {}", written(beyond))?;
    let numbers: [_; 13] = array::from_fn(|row| rows::numbers(row, true));
    let words: [_; 13] = array::from_fn(|row| rows::words(row, true));
    let bodies = Bodies {
        older: true,
        numbers: numbers.as_flattened(),
        words: words.as_flattened(),
        count: 13,
    };
    let mut back = [7.0; 169];
    let _ = midnight::run(tables, lent(&WINDOWS, 6), bodies, &mut back);
    let (back, _) = back.as_chunks::<13>();
    let mut pairs = told.iter().zip(back.iter().rev()).take(12);
    let follow = if pairs.all(|(row, back)| alike(row, back)) {
        "the first 12 follow"
    } else {
        "not all follow"
    };
    println!(rt; "in reverse: {follow}")
}

// ---- calls that are refused whole

// What is called; how many windows and bodies; word 19 of the cube; and how much of a buffer.
const WHOLE: [(&str, u32, u32, u32, usize); 8] = [
    ("4,096 bodies over 16 windows", 16, 4096, 15, 53248),
    ("a buffer one number short", 16, 4096, 15, 53247),
    ("4,097 bodies", 16, 4097, 15, 53261),
    ("17 windows", 17, 4096, 15, 53248),
    ("17 windows, and no room", 17, 4096, 15, 0),
    ("a wrong word in the tables", 16, 4096, 14, 53248),
    ("a wrong word, 17 windows, and no room", 17, 4096, 14, 0),
    ("no window, no body, and no room", 0, 0, 15, 0),
];

fn whole(rt: &impl Print) -> io::Result<()> {
    let numbers: [_; 4097] = array::from_fn(|row| rows::numbers(row, false));
    let words: [_; 4097] = array::from_fn(|row| rows::words(row, false));
    for (what, windows, count, faces, room) in WHOLE {
        let tables = Tables {
            records: &records(faces),
            shapes: &SHAPES,
        };
        let bodies = Bodies {
            older: true,
            numbers: numbers.as_flattened(),
            words: words.as_flattened(),
            count,
        };
        let mut out = [7.0; 53261];
        if let Some(room) = out.get_mut(..room) {
            let answer = midnight::run(tables, lent(&WINDOWS, windows), bodies, room);
            println!(rt;
                "{what}: refusal {}, {}",
                runs::told(&answer),
                written(&out)
            )?;
        }
    }
    Ok(())
}

fn main(rt: HostRuntime) -> io::Result<()> {
    thirteen(&rt)?;
    whole(&rt)?;
    two::run(&rt)
}
