// The classroom palette, run: what buffers a word short, and a word too long, are answered, and two sums of what stands in each then; the same sums of
// the boxes that are looked up, one state and one box too many; and the table check's answer. What must be written was worked out from the text of
// the request (`expected` in tools/scenepalette.py), not run.
#![tactic(auto)]

use std::{fmt, io};
use tables::Tables;

// Two sums over the numbers so far, each wrapping at 2^64: of the numbers, and of the first sum as it was after each, so that their order counts.
#[derive(Clone, Copy, Default)]
struct Sums {
    each: u64,
    after_each: u64,
}

impl Sums {
    fn with(self, x: u64) -> Sums {
        let each = self.each.wrapping_add(x);
        Sums {
            each,
            after_each: self.after_each.wrapping_add(each),
        }
    }

    fn with_number(self, x: f64) -> Sums {
        self.with(floats::bits_of_float(x))
    }
}

impl fmt::Display for Sums {
    fn fmt<W: fmt::Write>(&self, f: &mut fmt::Formatter<W>) -> fmt::Result {
        write!(f, "{} {}", self.each, self.after_each)
    }
}

fn fill_records(rt: &impl Print, what: &str, out: &mut [u32]) -> io::Result<()> {
    let told = runs::told(&palette::fill_records(out));
    let sums = out
        .iter()
        .fold(Sums::default(), |sums, word| sums.with(u64::from(*word)));
    println!(rt; "{what}: {told} {sums}")
}

fn fill_shapes(rt: &impl Print, what: &str, out: &mut [f32]) -> io::Result<()> {
    let told = runs::told(&palette_boxes::fill_shapes(out));
    let sums = out.iter().fold(Sums::default(), |sums, number| {
        sums.with_number(std::num::f32_to_f64_with_nan(*number))
    });
    println!(rt; "{what}: {told} {sums}")
}

fn boxes_looked_up() -> Sums {
    let mut sums = Sums::default();
    for state in 0..213 {
        for k in 0..6 {
            let b = palette_boxes::palette_box(state, k);
            for x in [b.x0, b.y0, b.z0, b.x1, b.y1, b.z1] {
                sums = sums.with_number(x);
            }
        }
    }
    sums
}

// The first words and numbers, without what lies beyond.
fn check(records: &[u32], shapes: &[f32]) -> u32 {
    runs::told(&table_check::check_tables(Tables {
        records: runs::first(records, 4240),
        shapes: runs::first(shapes, 3948),
    }))
}

fn main(rt: HostRuntime) -> io::Result<()> {
    fill_records(&rt, "records, a word short", &mut [7; 4239])?;
    let mut records = [7; 4241];
    fill_records(&rt, "records", &mut records)?;
    fill_shapes(&rt, "boxes, a number short", &mut [7.0; 3947])?;
    let mut shapes = [7.0; 3949];
    fill_shapes(&rt, "boxes", &mut shapes)?;
    println!(rt; "boxes looked up: 0 {}", boxes_looked_up())?;
    println!(rt;
        "the table check: {} {}",
        check(&records, &shapes),
        Sums::default()
    )
}
