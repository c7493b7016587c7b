// The boxes of the classroom palette: those of a state by rule, and the table of all.
#![tactic(auto)]

ghost use Rattle.std.specs.Prelude.{◌≡◌, ◌+◌, ◌<◌, ◌≤◌, true, map, length, slice_set};
ghost use Rattle.base.specs.Loop.{stored};
ghost use Rattle.base.specs.Refusals.{verdict};
ghost use Rattle.tables.specs.Tables.{float_at, box_at};
ghost use Rattle.palette_boxes.specs.Shapes.{by_kind, post_edge, arm_edge, arm_length, height, box_of_part, sixteenths, has_part, part_numbers, boxes_of_state, one, box_count_of, first_box_of, shape_numbers, palette_shapes};
ghost use Rattle.palette_boxes.specs.Fill.{fill_refusal, filled};

use base::Refusal;
use palette_states::{has_post, kind_of, side_digit};
use tables::ShapeBox;

// What a number is by kind: a pane's, a wall's, or a fence's.
#[tactic(auto, using(base::proofs::Cases::cases), unfolding(crate::specs::Shapes::by_kind, base::specs::Choose::choose))]
fn by_kind(kind: u32, pane: u8, wall: u8, fence: u8) -> u8
    requires { (pane ≤ 16) × (wall ≤ 16) × (fence ≤ 16) }
    ensures value { result ≡ by_kind kind pane wall fence }
    ensures most { result ≤ 16 }
{
    match kind {
        3 => pane,
        4 => wall,
        _ => fence,
    }
}

#[tactic(auto, using(base::proofs::Cases::cases), unfolding(crate::specs::Shapes::post_edge, base::specs::Choose::choose))]
fn post_edge(kind: u32) -> u8
    ensures value { result ≡ post_edge kind }
    ensures most { result ≤ 16 }
{
    if kind == 0 { 0 } else { by_kind(kind, 7, 4, 6) }
}

#[tactic(auto, unfolding(crate::specs::Shapes::arm_edge))]
fn arm_edge(kind: u32) -> u8
    ensures value { result ≡ arm_edge kind }
    ensures most { result ≤ 16 }
{
    by_kind(kind, 7, 5, 6)
}

#[tactic(auto, unfolding(crate::specs::Shapes::arm_length))]
fn arm_length(kind: u32) -> u8
    ensures value { result ≡ arm_length kind }
    ensures most { result ≤ 16 }
{
    by_kind(kind, 7, 8, 6)
}

#[tactic(auto, using(base::proofs::Cases::cases), unfolding(crate::specs::Shapes::height, base::specs::Choose::choose))]
fn height_of(kind: u32) -> u8
    ensures { result ≡ height kind }
{
    match kind {
        0 | 3 => 16,
        _ => 24,
    }
}

// The box of a part, in sixteenths.
#[tactic(auto, using(base::proofs::Cases::cases), unfolding(crate::specs::Shapes::box_of_part, base::specs::Choose::choose))]
fn box_of_part(kind: u32, part: u32) -> [u8; 6]
    ensures { result ≡ box_of_part kind part }
{
    let h = height_of(kind);
    if part == 0 {
        let a = post_edge(kind);
        return [a, 0, a, 16 - a, h, 16 - a];
    }
    let a = arm_edge(kind);
    let n = arm_length(kind);
    match part {
        1 => [a, 0, 0, 16 - a, h, n],
        2 => [16 - n, 0, a, 16, h, 16 - a],
        3 => [a, 0, 16 - n, 16 - a, h, 16],
        _ => [0, 0, a, n, h, 16 - a],
    }
}

// n / 16, exactly.
fn in_blocks(n: u8) -> f32
    ensures { result ≡ sixteenths n }
{
    n as f32 / 16.0
}

#[tactic(auto, using(base::proofs::Cases::cases), unfolding(crate::specs::Shapes::has_part, base::specs::Choose::choose))]
fn has_part(state: u32, part: u32) -> bool
    ensures { result ≡ has_part state part }
{
    if part == 0 {
        has_post(state)
    } else {
        side_digit(state, part - 1) != 0
    }
}

#[tactic(auto, using(base::proofs::Cases::cases), unfolding(crate::specs::Shapes::one, base::specs::Choose::choose))]
fn one_if(state: u32, part: u32) -> u32
    ensures value { result ≡ one state part }
    ensures most { result ≤ 1 }
{
    u32::from(has_part(state, part))
}

// Word 8.
#[tactic(auto, unfolding(crate::specs::Shapes::box_count_of))]
pub fn box_count(state: u32) -> u32
    ensures value { result ≡ box_count_of state }
    ensures most { result ≤ 5 }
{
    one_if(state, 0) + one_if(state, 1) + one_if(state, 2) + one_if(state, 3) + one_if(state, 4)
}

// Word 7: 0 where there is no such state.
pub fn first_box_of(state: u32) -> u32
    ensures { result ≡ first_box_of state }
{
    if state >= 212 {
        return 0;
    }
    let mut n = 0;
    for i in 0..state {
        n += box_count(i);
    }
    n
}

// Number c of a part that a state has.
fn part_number(state: u32, part: u32, c: usize) -> f64
    requires { (has_part state part ≡ true) × (c < 6) }
    ensures { result ≡ float_at (part_numbers state part) c }
{
    let b = box_of_part(kind_of(state), part);
    std::num::f32_to_f64_with_nan(in_blocks(b[c]))
}

// Number i of a state's boxes: 0.0 where there is none.
fn number_of(state: u32, i: usize) -> f64
    ensures { result ≡ float_at (boxes_of_state state) i }
{
    let mut left = i;
    for part in 0..5 {
        if !has_part(state, part) {
            continue;
        }
        if left < 6 {
            return part_number(state, part, left);
        }
        left -= 6;
    }
    0.0
}

// Box k of a state: zeros where there is none.
pub fn palette_box(state: u32, k: u32) -> ShapeBox
    ensures { result ≡ box_at (boxes_of_state state) k }
{
    let i = k as usize * 6;
    ShapeBox {
        x0: number_of(state, i),
        y0: number_of(state, i + 1),
        z0: number_of(state, i + 2),
        x1: number_of(state, i + 3),
        y1: number_of(state, i + 4),
        z1: number_of(state, i + 5),
    }
}

fn put(out: &mut [f32], i: usize, x: f32)
    ensures { out.new ≡ slice_set out.old i x }
{
    // by index: of `get_mut` the check knows the length that it leaves, and not the numbers
    if i < out.len() {
        out[i] = x;
    }
}

fn put_box(out: &mut [f32], at: u32, kind: u32, part: u32)
    ensures { out.new ≡ stored out.old at (map sixteenths (box_of_part kind part)) }
{
    let b = box_of_part(kind, part);
    for (c, n) in b.iter().enumerate() {
        put(out, at as usize + c, in_blocks(*n));
    }
}

// A part of a state from place `at` on, where it has it: the place behind it.
fn put_part(out: &mut [f32], at: u32, state: u32, part: u32) -> u32
    requires { at < 10000 }
    ensures value { result ≡ at + length (part_numbers state part) }
    ensures written { out.new ≡ stored out.old at (part_numbers state part) }
{
    if has_part(state, part) {
        put_box(out, at, kind_of(state), part);
        return at + 6;
    }
    at
}

fn put_boxes(out: &mut [f32], at: u32, state: u32) -> u32
    requires { at < 9000 }
    ensures value { result ≡ at + length (boxes_of_state state) }
    ensures written { out.new ≡ stored out.old at (boxes_of_state state) }
{
    let mut next = at;
    for part in 0..5 {
        next = put_part(out, next, state, part);
    }
    next
}

// The boxes of every state.
fn put_all(out: &mut [f32])
    ensures { out.new ≡ stored out.old 0 palette_shapes }
{
    let mut at = 0;
    for state in 0..212 {
        at = put_boxes(out, at, state);
    }
}

/// The 3,948 numbers of the boxes. Where the buffer is too short the answer is `Room`, and nothing is written.
pub fn fill_shapes(out: &mut [f32]) -> Result<(), Refusal>
    ensures value { verdict result ≡ fill_refusal shape_numbers out.old }
    ensures written { out.new ≡ filled shape_numbers out.old palette_shapes }
{
    if out.len() < 3948 {
        return Err(Refusal::Room);
    }
    put_all(out);
    Ok(())
}
