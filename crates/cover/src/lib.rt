// Module 4, face cover: whether the boxes of a state cover a whole face of the unit block.
#![tactic(auto)]

ghost use Rattle.std.specs.Prelude.{◌≡◌, ◌<◌, ◌≤◌};
ghost use Rattle.base.specs.Choose.{choose};
ghost use Rattle.base.specs.Every.{any};
ghost use Rattle.cover.specs.Cover.{box_count, box_number, on_face, u_place, u1, v1, has_nan, covers_face, full_faces};
ghost use Rattle.cover.specs.Gaps.{spans_line, has_point, is_inner, has_gap_at, gap_past, gap_on_line, gap_on_face};

// A horizontal side of a block, in the order of word 19's bits.
#[derive(Clone, Copy, Debug, PartialEq, Eq)]
pub enum Side {
    North,
    East,
    South,
    West,
}

// Number c of box k, of x0 y0 z0 x1 y1 z1.
fn number(shape: &[f32], k: usize, c: usize) -> f32
    requires { (k < box_count shape.now) × (c < 6) }
    ensures { result ≡ box_number shape.now k c }
{
    shape[k * 6 + c]
}

// Box k is at the face or past it.
#[tactic(auto, unfolding(crate::specs::Cover::on_face))]
fn on_face(shape: &[f32], face: Side, k: usize) -> bool
    requires { k < box_count shape.now }
    ensures { result ≡ on_face shape.now face k }
{
    match face {
        Side::North => number(shape, k, 2) <= 0.0,
        Side::East => number(shape, k, 3) >= 1.0,
        Side::South => number(shape, k, 5) >= 1.0,
        Side::West => number(shape, k, 0) <= 0.0,
    }
}

// The place of u0 in a box: x0 along north and south, z0 along east and west.
#[tactic(auto, unfolding(crate::specs::Cover::u_place))]
fn u_place(face: Side) -> usize
    ensures value { result ≡ u_place face }
    ensures small { result < 3 }
{
    match face {
        Side::North | Side::South => 0,
        Side::East | Side::West => 2,
    }
}

// Box k is on the face, and an edge of its rectangle is a NaN.
fn has_nan(shape: &[f32], face: Side, k: usize) -> bool
    requires { k < box_count shape.now }
    ensures { result ≡ has_nan shape.now face k }
{
    let a = u_place(face);
    let (u0, u1) = (number(shape, k, a), number(shape, k, a + 3));
    let (v0, v1) = (number(shape, k, 1), number(shape, k, 4));
    on_face(shape, face, k) && (u0.is_nan() || u1.is_nan() || v0.is_nan() || v1.is_nan())
}

fn nan_on_face(shape: &[f32], face: Side) -> bool
    ensures { result ≡ any (box_count shape.now) (has_nan shape.now face) }
{
    (0..shape.len() / 6).any(|k| has_nan(shape, face, k))
}

// Box k is on the face, and u is within its width: its left edge counted in, its right edge not.
#[tactic(auto, using(base::proofs::Cases::cases), unfolding(crate::specs::Gaps::spans_line))]
fn spans_line(shape: &[f32], face: Side, u: f32, k: usize) -> bool
    requires { k < box_count shape.now }
    ensures { result ≡ spans_line shape.now face u k }
{
    let a = u_place(face);
    on_face(shape, face, k) && !(u < number(shape, k, a)) && u < number(shape, k, a + 3)
}

// The same, with v within its height.
#[tactic(auto, using(base::proofs::Cases::cases), unfolding(crate::specs::Gaps::has_point))]
fn has_point(shape: &[f32], face: Side, u: f32, v: f32, k: usize) -> bool
    requires { k < box_count shape.now }
    ensures { result ≡ has_point shape.now face u v k }
{
    spans_line(shape, face, u, k) && !(v < number(shape, k, 1)) && v < number(shape, k, 4)
}

// An edge strictly inside the unit square.
#[tactic(auto, unfolding(crate::specs::Gaps::is_inner))]
fn is_inner(e: f32) -> bool
    ensures { result ≡ is_inner e }
{
    0.0 < e && e < 1.0
}

// No rectangle has the point.
fn gap_at(shape: &[f32], face: Side, u: f32, v: f32) -> bool
    ensures { result ≡ has_gap_at shape.now face u v }
{
    !(0..shape.len() / 6).any(|k| has_point(shape, face, u, v, k))
}

// A gap at u, just above box k.
#[tactic(auto, using(base::proofs::Cases::cases), unfolding(crate::specs::Gaps::gap_past))]
fn gap_above(shape: &[f32], face: Side, u: f32, k: usize) -> bool
    requires { k < box_count shape.now }
    ensures { result ≡ gap_past (spans_line shape.now face u) (v1 shape.now) (has_gap_at shape.now face u) k }
{
    let v = number(shape, k, 4);
    is_inner(v) && spans_line(shape, face, u, k) && gap_at(shape, face, u, v)
}

// A gap on the upright line at u.
fn gap_on_line(shape: &[f32], face: Side, u: f32) -> bool
    ensures { result ≡ gap_on_line shape.now face u }
{
    gap_at(shape, face, u, 0.0) || (0..shape.len() / 6).any(|k| gap_above(shape, face, u, k))
}

// A gap on the line along the right edge of box k.
#[tactic(auto, using(base::proofs::Cases::cases), unfolding(crate::specs::Gaps::gap_past))]
fn gap_beside(shape: &[f32], face: Side, k: usize) -> bool
    requires { k < box_count shape.now }
    ensures { result ≡ gap_past (on_face shape.now face) (u1 shape.now face) (gap_on_line shape.now face) k }
{
    let u = number(shape, k, u_place(face) + 3);
    is_inner(u) && on_face(shape, face, k) && gap_on_line(shape, face, u)
}

fn gap_on_face(shape: &[f32], face: Side) -> bool
    ensures { result ≡ gap_on_face shape.now face }
{
    gap_on_line(shape, face, 0.0) || (0..shape.len() / 6).any(|k| gap_beside(shape, face, k))
}

// The boxes cover the whole face. A single box is asked a fixed number of times.
pub fn covers_face(shape: &[f32], face: Side) -> bool
    ensures { result ≡ covers_face shape.now face }
{
    !nan_on_face(shape, face) && !gap_on_face(shape, face)
}

#[tactic(auto, using(base::proofs::Cases::cases), unfolding(base::specs::Choose::choose))]
fn bit(set: bool, weight: u32) -> u32
    ensures value { result ≡ choose set weight 0 }
    ensures most { result ≤ weight }
{
    if set { weight } else { 0 }
}

// The faces covered whole, as word 19 has them.
#[tactic(auto, unfolding(crate::specs::Cover::full_faces))]
pub fn full_faces(shape: &[f32]) -> u32
    ensures { result ≡ full_faces shape.now }
{
    let n = covers_face(shape, Side::North);
    let e = covers_face(shape, Side::East);
    let s = covers_face(shape, Side::South);
    let w = covers_face(shape, Side::West);
    bit(n, 1) + bit(e, 2) + bit(s, 4) + bit(w, 8)
}
