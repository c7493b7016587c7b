// Fall records: the rule alone, `fall SUM LANDED OLD-Y NEW-Y GROUND LIQUID`, where a record that is a 3 comes back as given; and, for each of the
// original's scenes whose tick is not refused, `after NUMBER fall SUM LANDED`: the record after that tick, from a fresh one.
use crate::scenes;
use crate::spelling::{Bits, Line};
use base::Refusal;
use fall_rule::Fall;
use std::rt::Files;
use std::{fmt, io};
use tables::LiquidKind;

#[derive(Clone, Copy)]
pub(crate) struct Record(pub(crate) Fall);

impl fmt::Display for Record {
    fn fmt<W: fmt::Write>(&self, f: &mut fmt::Formatter<W>) -> fmt::Result {
        let Fall { sum, landed } = self.0;
        write!(f, "fall {} {}", Bits(sum), Bits(landed))
    }
}

pub(crate) fn run(rt: &impl Print, line: Line<'_>) -> io::Result<()> {
    let [sum, landed, old, new] = line.floats::<4>(1);
    let fall = Fall { sum, landed };
    if !fall_rule::fall_fits(fall) {
        return print!(rt; "{} {}", Refusal::Number, Record(fall));
    }
    let liquid = match line.word(6) {
        [b'w', ..] => LiquidKind::Water,
        [b'l', ..] => LiquidKind::Lava,
        _ => LiquidKind::None,
    };
    let after = fall_rule::fall_after(fall, old, new, line.flag(5), liquid);
    print!(rt; "{}", Record(after))
}

// The y of the feet that a scene's body has before its tick.
fn feet_y(file: &[u8]) -> f64 {
    let low = files::body_word(file, 2);
    let high = files::body_word(file, 3);
    floats::float_of_bits(u64::from(low) + u64::from(high) * 4294967296)
}

fn run_scene(rt: &(impl Files + Print), n: u32) -> io::Result<()> {
    let mut room = [0; 65537];
    let Some(file) = scenes::read(rt, n, *b"scn", &mut room)? else {
        return Ok(());
    };
    let Ok(tick) = scene::tick_of(file) else {
        return Ok(());
    };
    let fresh = Fall {
        sum: 0.0,
        landed: 0.0,
    };
    let motion = tick.motion;
    let after = fall_rule::fall_after(
        fresh,
        feet_y(file),
        motion.feet.y,
        motion.on_ground,
        tick.liquid,
    );
    println!(rt; "after {n:04} {}", Record(after))
}

// The scenes that were made with heights and columns, those of both marks, and those of a cap. The scenes from 260 to 1999 have no stored record.
pub(crate) fn run_scenes(rt: &(impl Files + Print)) -> io::Result<()> {
    for n in (0..260).chain(2000..3204) {
        run_scene(rt, n)?;
    }
    Ok(())
}
