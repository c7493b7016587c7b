// The midnight call for two parties, run. Each half is held to the bits that the midnight call alone writes into such a half, over that party's windows
// and bodies. The first party has all windows and the bodies in their order; the second the windows from the second on, and the bodies in reverse, so
// that a number names another window there.
use crate::{SHAPES, WINDOWS, alike, is_kept, lent, records, refusal_of, rows};
use base::Refusal;
use night_rows::{Bodies, Windows};
use parties::{Party, Told};
use std::{array, io};
use tables::Tables;

// How many windows and bodies a party names.
type Counts = (u32, u32);

fn windows(second: bool, count: u32) -> Windows<'static> {
    if second {
        lent(&WINDOWS[1..], count)
    } else {
        lent(&WINDOWS, count)
    }
}

fn numbers(second: bool) -> [[f64; 21]; 13] {
    array::from_fn(|row| rows::numbers(row, second))
}

fn words(second: bool) -> [[u32; 10]; 13] {
    array::from_fn(|row| rows::capped_words(row, second))
}

// The call. Word 19 of the cube is `faces`: 15 are right.
fn call(faces: u32, one: Counts, two: Counts, out: &mut [f64]) -> Told {
    let records = records(faces);
    let tables = Tables {
        records: &records,
        shapes: &SHAPES,
    };
    let (numbers1, words1) = (numbers(false), words(false));
    let first = Party {
        windows: windows(false, one.0),
        numbers: numbers1.as_flattened(),
        words: words1.as_flattened(),
        bodies: one.1,
    };
    let (numbers2, words2) = (numbers(true), words(true));
    let second = Party {
        windows: windows(true, two.0),
        numbers: numbers2.as_flattened(),
        words: words2.as_flattened(),
        bodies: two.1,
    };
    parties::run(tables, first, second, out)
}

// The midnight call alone of one of the two.
fn alone(second: bool, counts: Counts, half: &mut [f64]) -> Result<(), Refusal> {
    let records = records(15);
    let tables = Tables {
        records: &records,
        shapes: &SHAPES,
    };
    let (numbers, words) = (numbers(second), words(second));
    let bodies = Bodies {
        older: false,
        numbers: numbers.as_flattened(),
        words: words.as_flattened(),
        count: counts.1,
    };
    midnight::run(tables, windows(second, counts.0), bodies, half)
}

// What a half holds after the call.
fn held(half: &[f64], second: bool, counts: Counts) -> &'static str {
    let mut room = [7.0; 26624];
    if is_kept(half) {
        return "kept";
    }
    if let Some(room) = room.get_mut(..half.len()) {
        let _ = alone(second, counts, room);
        if alike(half, room) {
            return "as alone";
        }
    }
    "altered"
}

// What is called; word 19 of the cube; the counts of the one and of the other; and how many places the buffer has.
const CALLS: [(&str, u32, Counts, Counts, usize); 17] = [
    ("13 bodies each, 345 places", 15, (6, 13), (5, 13), 345),
    ("13 bodies each, 339 places", 15, (6, 13), (5, 13), 339),
    ("13 bodies each, 338 places", 15, (6, 13), (5, 13), 338),
    ("13 bodies each, 337 places", 15, (6, 13), (5, 13), 337),
    ("12 bodies and 13, 337 places", 15, (6, 12), (5, 13), 337),
    ("13 bodies and 12, 337 places", 15, (6, 13), (5, 12), 337),
    (
        "2,048 bodies each over 16 windows",
        15,
        (16, 2048),
        (16, 2048),
        53249,
    ),
    ("2,049 bodies and 13", 15, (6, 2049), (5, 13), 53249),
    ("13 bodies and 2,049", 15, (6, 13), (5, 2049), 53249),
    ("17 windows and five", 15, (17, 13), (5, 13), 345),
    ("six windows and 17", 15, (6, 13), (17, 13), 345),
    (
        "2,049 bodies and no room for 13",
        15,
        (6, 2049),
        (5, 13),
        337,
    ),
    ("13 bodies and nothing", 15, (6, 13), (0, 0), 345),
    ("nothing and 13 bodies", 15, (0, 0), (5, 13), 345),
    ("nothing at all", 15, (0, 0), (0, 0), 0),
    ("a wrong word in the tables", 14, (6, 13), (5, 13), 345),
    (
        "a wrong word, 2,049 bodies, 17 windows, and one place",
        14,
        (6, 2049),
        (17, 13),
        1,
    ),
];

// What each is told, what each half then holds, and the place beyond them.
fn tell(rt: &impl Print, out: &[f64], told: Told, one: Counts, two: Counts) -> io::Result<()> {
    let (first, second) = (runs::told(&told.first), runs::told(&told.second));
    let (half, behind) = out.split_at(out.len() / 2);
    let (other, beyond) = behind.split_at(out.len() / 2);
    let half = held(half, false, one);
    let other = held(other, true, two);
    let beyond = if is_kept(beyond) { "kept" } else { "written" };
    println!(rt; "{first}, {half}; {second}, {other}; beyond, {beyond}")
}

// The second party has one window, and the first all six: what a body of the second is told that names another.
fn names(rt: &impl Print) -> io::Result<()> {
    let mut out = [7.0; 339];
    call(15, (6, 13), (1, 13), &mut out);
    let (told, _) = out[169..].as_chunks::<13>();
    for (row, [name, ..]) in told.iter().zip(words(true)) {
        let refusal = refusal_of(row);
        println!(rt; "a body of the second that names {name}: refusal {refusal}")?;
    }
    Ok(())
}

pub(crate) fn run(rt: &impl Print) -> io::Result<()> {
    for (what, faces, one, two, places) in CALLS {
        let mut out = [7.0; 53249];
        if let Some(out) = out.get_mut(..places) {
            let told = call(faces, one, two, out);
            print!(rt; "{what}: ")?;
            tell(rt, out, told, one, two)?;
        }
    }
    names(rt)
}
