// The limits on what is handed in.
ghost use Rattle.std.specs.Prelude.{◌≡◌};
ghost use Rattle.boxes.specs.Limits.{are_within, is_side, sides_of, is_box, is_delta, is_step};

use crate::{Aabb, Vec3};

// Each of the three is finite, and of size at most the limit.
pub fn are_within(v: Vec3, limit: f64) -> bool
    ensures { result ≡ are_within v limit }
{
    floats::is_within(v.x, limit) & (floats::is_within(v.y, limit) & floats::is_within(v.z, limit))
}

#[tactic(auto, using(crate::proofs::Numbers::limits))]
fn is_side(lo: f64, hi: f64) -> bool
    ensures { result ≡ is_side lo hi }
{
    lo <= hi && hi - lo <= 16.0
}

fn are_sides(b: Aabb) -> bool
    ensures { result ≡ sides_of b }
{
    is_side(b.min.x, b.max.x) && is_side(b.min.y, b.max.y) && is_side(b.min.z, b.max.z)
}

// Coordinates of size at most 2^25, min at or below max, sides of at most 16.
#[tactic(auto, using(crate::proofs::Numbers::limits))]
pub fn is_box(b: Aabb) -> bool
    ensures { result ≡ is_box b }
{
    are_within(b.min, 33554432.0) && are_within(b.max, 33554432.0) && are_sides(b)
}

#[tactic(auto, using(crate::proofs::Numbers::limits))]
pub fn is_delta(v: Vec3) -> bool
    ensures { result ≡ is_delta v }
{
    are_within(v, 128.0)
}

// A step height: 0 to 4.
#[tactic(auto, using(crate::proofs::Numbers::limits))]
pub fn is_step(h: f64) -> bool
    ensures { result ≡ is_step h }
{
    floats::is_within(h, 4.0) && h >= 0.0
}
