// Vectors as glam has them. No product of zero is left out: the sign of a zero is the Rust's.
ghost use Rattle.std.specs.Prelude.{◌≡◌};
ghost use Rattle.boxes.specs.Boxes.{plus, minus};
ghost use Rattle.boxes.specs.Vectors.{zero_vec, unit_y, scaled, squared, length_of, normalised};

use crate::Vec3;

pub fn zero() -> Vec3
    ensures { result ≡ zero_vec }
{
    Vec3 {
        x: 0.0,
        y: 0.0,
        z: 0.0,
    }
}

pub fn unit_y() -> Vec3
    ensures { result ≡ unit_y }
{
    Vec3 {
        x: 0.0,
        y: 1.0,
        z: 0.0,
    }
}

pub fn add(a: Vec3, b: Vec3) -> Vec3
    ensures { result ≡ plus a b }
{
    Vec3 {
        x: a.x + b.x,
        y: a.y + b.y,
        z: a.z + b.z,
    }
}

pub fn subtract(a: Vec3, b: Vec3) -> Vec3
    ensures { result ≡ minus a b }
{
    Vec3 {
        x: a.x - b.x,
        y: a.y - b.y,
        z: a.z - b.z,
    }
}

pub fn scale(v: Vec3, d: f64) -> Vec3
    ensures { result ≡ scaled v d }
{
    Vec3 {
        x: v.x * d,
        y: v.y * d,
        z: v.z * d,
    }
}

// a + v * d.
pub fn add_scaled(a: Vec3, v: Vec3, d: f64) -> Vec3
    ensures { result ≡ plus a (scaled v d) }
{
    Vec3 {
        x: a.x + v.x * d,
        y: a.y + v.y * d,
        z: a.z + v.z * d,
    }
}

pub fn squares(v: Vec3) -> f64
    ensures { result ≡ squared v }
{
    v.x * v.x + v.y * v.y + v.z * v.z
}

// The square root of what is no number, or is infinite, counts as 0.
fn length(v: Vec3) -> f64
    ensures { result ≡ length_of v }
{
    roots::sqrt(squares(v)).unwrap_or(0.0)
}

// glam's normalize_or_zero.
#[tactic(auto, using(base::proofs::Cases::cases), unfolding(crate::specs::Vectors::normalised, base::specs::Choose::choose))]
pub fn normalize_or_zero(v: Vec3) -> Vec3
    ensures { result ≡ normalised v }
{
    let reciprocal = 1.0 / length(v);
    if floats::is_finite(reciprocal) && reciprocal > 0.0 {
        scale(v, reciprocal)
    } else {
        zero()
    }
}
