// Module 1, whole numbers: floor, ceiling, and the cell of a coordinate.
#![tactic(auto)]

ghost use Rattle.std.specs.Prelude.{◌≡◌};
ghost use Rattle.std.specs.Float.Ieee.{lt};
ghost use Rattle.base.specs.Choose.{choose};
ghost use Rattle.floats.specs.Numbers.{is_finite, answered, answer_where};
ghost use Rattle.wholes.specs.Whole.{floor_of, ceil_of, cell_of};

use base::Refusal;

// `one` where x is below y, or else `zero`: a number, so that the caller subtracts it and does not branch.
#[tactic(auto, using(base::proofs::Cases::cases), unfolding(base::specs::Choose::choose))]
fn excess<T: Copy>(x: f64, y: f64, one: T, zero: T) -> T
    ensures { result ≡ choose (lt x y) one zero }
{
    if x < y { one } else { zero }
}

// The floor of any finite number.
fn far_floor(x: f64) -> Result<f64, Refusal>
    ensures { answered result ≡ answer_where (is_finite x) (floor_of x) }
{
    if floats::is_finite(x) {
        Ok(x.floor())
    } else {
        Err(Refusal::Place)
    }
}

/// The greatest whole number that is not above x: Err(Place) where x is not finite.
// A sum of 2^52 or more has no fraction: for x of size at most 2^50, x + 1.5 * 2^52 is x rounded to a whole number, and where that is above x the
// floor is one less. A zero is its own floor, with its sign.
pub fn floor(x: f64) -> Result<f64, Refusal>
    ensures { answered result ≡ answer_where (is_finite x) (floor_of x) }
{
    if x <= 1125899906842624.0 && -1125899906842624.0 <= x {
        if x == 0.0 {
            return Ok(x);
        }
        let y: f64 = x + 6755399441055744.0;
        let w: f64 = y - 6755399441055744.0;
        let e = excess(x, w, 1.0, 0.0);
        return Ok(w - e);
    }
    far_floor(x)
}

/// The least whole number that is not below x: Err(Place) where x is not finite.
pub fn ceil(x: f64) -> Result<f64, Refusal>
    ensures { answered result ≡ answer_where (is_finite x) (ceil_of x) }
{
    Ok(-floor(-x)?)
}

/// The cell of a coordinate: floor as an integer. What lies beyond 2^26, or is a NaN, has a cell that no window holds.
// By the same sum, whose last bits are the rounded number's digits.
pub fn cell(x: f64) -> i32
    ensures { result ≡ cell_of x }
{
    if x <= 67108864.0 {
        if -67108864.0 <= x {
            let y: f64 = x + 6755399441055744.0;
            let n = f64::to_bits(y) - 0x4337_ffff_fc00_0000;
            let e = excess(x, y - 6755399441055744.0, 1, 0);
            return (n - e) as i32 - 67108864;
        }
        return -67108864;
    }
    67108864
}
