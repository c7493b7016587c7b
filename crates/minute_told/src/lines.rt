// What is printed of a minute, as bytes in a lent buffer: a line of feet for each tick, and `refused N` where one ends it. Each piece is written at a
// cursor, as `text` has it.
ghost use Rattle.std.specs.Prelude.{◌≡◌};
ghost use Rattle.base.specs.Loop.{listed};
ghost use Rattle.text.specs.Cursor.{Put};
ghost use Rattle.minute_told.specs.Printed.{feet_lines, ending, text_by, feet_at};

use base::Verdict;
use bodies::number_at;
use boxes::Vec3;

// The feet of tick i.
fn feet_at(feet: &[f64], i: u32) -> Vec3
    ensures { result ≡ feet_at feet.now i }
{
    let at = i as usize * 3;
    Vec3 {
        x: number_at(feet, at),
        y: number_at(feet, at + 1),
        z: number_at(feet, at + 2),
    }
}

// The lines of so many ticks.
fn put_lines(out: &mut [u8], feet: &[f64], ticks: u32) -> usize
    ensures { Put out.old 0 (feet_lines (listed (feet_at feet.now) ticks 0)) out.new result }
{
    let mut cursor = 0;
    for i in 0..ticks {
        cursor = text::put_feet(out, cursor, feet_at(feet, i));
    }
    cursor
}

#[tactic(auto, using(base::proofs::Cases::cases, text::proofs::Cursor::nothing), unfolding(crate::specs::Printed::ending, base::specs::Choose::choose))]
fn put_ending<V: Verdict>(out: &mut [u8], at: usize, ended: V) -> usize
    ensures { Put out.old at (ending (V.says ended)) out.new result }
{
    if ended.told() == 0 {
        return at;
    }
    text::put_refusal(out, at, ended)
}

/// The text of so many ticks, whose feet stand in lent numbers, and of what ended them, as far as there is room for it. It returns how many bytes
/// that is.
pub fn put_text<V: Verdict>(out: &mut [u8], feet: &[f64], ticks: u32, ended: V) -> usize
    ensures { Put out.old 0 (text_by (listed (feet_at feet.now) ticks 0) (V.says ended)) out.new result }
{
    let at = put_lines(out, feet, ticks);
    put_ending(out, at, ended)
}
