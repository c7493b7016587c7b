// The answer of a tick as bytes in a lent buffer. Each piece is written at a cursor, and answered is the cursor behind it, which never passes
// the buffer's end: no piece has a place of its own, and one more goes between two others as it is.
#![tactic(auto)]

ghost use Rattle.std.specs.Prelude.{◌≡◌, [], ◌∷◌, ◌-◌, ◌*◌, ◌%◌};
ghost use Rattle.text.specs.Cursor.{Put};
ghost use Rattle.text.specs.Text.{hex_digit, hex_at, hex_of, vec_text, feet_line, velocity_line, ground_digit, ground_line, liquid_text, liquid_line, lines_of, refused_text, written, written_count};
ghost use Rattle.text.specs.Told.{told_by};

use base::Verdict;
use bodies::MotionNumbers;
use boxes::Vec3;
use tables::LiquidKind;

/// What the four lines of a step tell.
#[derive(Clone, Copy)]
pub struct Lines {
    pub motion: MotionNumbers,
    pub liquid: LiquidKind,
}

fn put(out: &mut [u8], at: usize, b: u8) -> usize
    ensures { Put out.old at (b ∷ []) out.new result }
{
    if at < out.len() {
        out[at] = b;
        return at + 1;
    }
    at
}

fn put_text(out: &mut [u8], at: usize, text: &[u8]) -> usize
    ensures { Put out.old at text.now out.new result }
{
    let mut cursor = at;
    for i in 0..text.len() {
        cursor = put(out, cursor, text[i]);
    }
    cursor
}

fn hex_digit(d: u8) -> u8
    ensures { result ≡ hex_digit (d % 16) }
{
    let n = d % 16;
    if n < 10 { 48 + n } else { 87 + n }
}

// How far digit k of 16, the highest first, lies above the lowest: in bits.
fn shift_of(k: u8) -> u64
    ensures { result ≡ 60 - k * 4 }
{
    if k < 15 { 60 - k as u64 * 4 } else { 0 }
}

fn hex_at(bits: u64, k: u8) -> u8
    ensures { result ≡ hex_at bits k }
{
    let by = shift_of(k);
    let n = (bits >> by) % 16;
    hex_digit(n as u8)
}

// 16 digits.
fn put_hex(out: &mut [u8], at: usize, x: f64) -> usize
    ensures { Put out.old at (hex_of x) out.new result }
{
    let bits = floats::bits_of_float(x);
    let mut cursor = at;
    for k in 0..16 {
        cursor = put(out, cursor, hex_at(bits, k));
    }
    cursor
}

// Three numbers and the line's end.
fn put_vec(out: &mut [u8], at: usize, v: Vec3) -> usize
    ensures { Put out.old at (vec_text v) out.new result }
{
    let x = put_hex(out, at, v.x);
    let gap = put_text(out, x, b" ");
    let y = put_hex(out, gap, v.y);
    let space = put_text(out, y, b" ");
    let z = put_hex(out, space, v.z);
    put_text(out, z, b"\n")
}

pub fn put_feet(out: &mut [u8], at: usize, v: Vec3) -> usize
    ensures { Put out.old at (feet_line v) out.new result }
{
    let name = put_text(out, at, b"feet ");
    put_vec(out, name, v)
}

fn put_velocity(out: &mut [u8], at: usize, v: Vec3) -> usize
    ensures { Put out.old at (velocity_line v) out.new result }
{
    let name = put_text(out, at, b"velocity ");
    put_vec(out, name, v)
}

fn ground_digit(grounded: u32) -> u8
    ensures { result ≡ ground_digit grounded }
{
    if grounded == 0 { 48 } else { 49 }
}

fn put_ground(out: &mut [u8], at: usize, grounded: u32) -> usize
    ensures { Put out.old at (ground_line grounded) out.new result }
{
    let name = put_text(out, at, b"ground ");
    let digit = put(out, name, ground_digit(grounded));
    put_text(out, digit, b"\n")
}

fn put_kind(out: &mut [u8], at: usize, kind: LiquidKind) -> usize
    ensures { Put out.old at (liquid_text kind) out.new result }
{
    match kind {
        LiquidKind::None => put_text(out, at, b"none"),
        LiquidKind::Water => put_text(out, at, b"water"),
        LiquidKind::Lava => put_text(out, at, b"lava"),
    }
}

fn put_liquid(out: &mut [u8], at: usize, kind: LiquidKind) -> usize
    ensures { Put out.old at (liquid_line kind) out.new result }
{
    let name = put_text(out, at, b"liquid ");
    let told = put_kind(out, name, kind);
    put_text(out, told, b"\n")
}

// The four lines of a step.
fn put_lines(out: &mut [u8], at: usize, motion: MotionNumbers, kind: LiquidKind) -> usize
    ensures { Put out.old at (lines_of motion kind) out.new result }
{
    let feet = put_feet(out, at, motion.feet);
    let velocity = put_velocity(out, feet, motion.velocity);
    let grounded = put_ground(out, velocity, motion.on_ground);
    put_liquid(out, grounded, kind)
}

/// The line of a refusal: `refused N`.
pub fn put_refusal<V: Verdict>(out: &mut [u8], at: usize, refusal: V) -> usize
    ensures { Put out.old at (refused_text (V.says refusal)) out.new result }
{
    let name = put_text(out, at, b"refused ");
    let digit = put(out, name, 48 + (refusal.told() % 10) as u8);
    put_text(out, digit, b"\n")
}

// Four lines, or `refused N`.
fn put_answer<V: Verdict>(out: &mut [u8], at: usize, answer: Result<Lines, V>) -> usize
    ensures { Put out.old at (told_by V.says answer) out.new result }
{
    match answer {
        Ok(lines) => put_lines(out, at, lines.motion, lines.liquid),
        Err(refusal) => put_refusal(out, at, refusal),
    }
}

/// An answer from the buffer's start on. It returns how many bytes that is; a buffer of fewer than 160 is left as it is, and the answer is 0.
pub fn write_answer<V: Verdict>(out: &mut [u8], answer: Result<Lines, V>) -> usize
    ensures out_after { out.new ≡ written out.old (told_by V.says answer) }
    ensures value { result ≡ written_count out.old (told_by V.says answer) }
{
    if out.len() < 160 {
        return 0;
    }
    put_answer(out, 0, answer)
}
