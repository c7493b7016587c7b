// The fall record: how far a body has fallen, and how far it fell to its last landing. Its rule for each move, and which records are no 3.
#![tactic(auto)]

ghost use Rattle.std.specs.Prelude.{◌≡◌};
ghost use Rattle.fall_rule.specs.Rule.{deeper, landing, fall_by, fall_after, is_fallen, fall_fits};

use flow::is_water;
use tables::LiquidKind;

/// The falling sum, since the last reset, and the landed number, of the last landing, both in blocks.
#[derive(Clone, Copy)]
pub struct Fall {
    pub sum: f64,
    pub landed: f64,
}

/// One addition, capped at 2^30.
fn deepen(sum: f64, drop: f64) -> f64
    ensures { result ≡ deeper sum drop }
{
    floats::lesser(sum + drop, 1073741824.0)
}

/// What a landing gives: the sum, with this move's drop added if it went down.
#[tactic(auto, using(base::proofs::Cases::cases), unfolding(crate::specs::Rule::landing, base::specs::Choose::choose))]
fn landing_of(sum: f64, moved: f64) -> f64
    ensures { result ≡ landing sum moved }
{
    if moved < 0.0 {
        deepen(sum, -moved)
    } else {
        sum
    }
}

/// Water first, then the ground, then a move down, then any other.
#[tactic(auto, using(base::proofs::Cases::cases), unfolding(crate::specs::Rule::fall_by, base::specs::Choose::choose))]
fn fall_by(fall: Fall, water: bool, grounded: bool, moved: f64) -> Fall
    ensures { result ≡ fall_by fall water grounded moved }
{
    if water {
        return Fall { sum: 0.0, ..fall };
    }
    if grounded {
        let landing = landing_of(fall.sum, moved);
        return Fall {
            sum: 0.0,
            landed: landing,
        };
    }
    if moved < 0.0 {
        return Fall {
            sum: deepen(fall.sum, -moved),
            ..fall
        };
    }
    Fall { sum: 0.0, ..fall }
}

/// The record after a move of the feet from one y to another, with the ground and the liquid of its step's answer.
pub fn fall_after(fall: Fall, old: f64, new: f64, grounded: bool, liquid: LiquidKind) -> Fall
    ensures { result ≡ fall_after fall old new grounded liquid }
{
    let moved = new - old;
    fall_by(fall, is_water(liquid), grounded, moved)
}

/// Finite, not negative and at most 2^30.
fn is_fallen(x: f64) -> bool
    ensures { result ≡ is_fallen x }
{
    floats::is_within(x, 1073741824.0) && x >= 0.0
}

/// Whether a record is no 3.
#[tactic(auto, unfolding(crate::specs::Rule::fall_fits))]
pub fn fall_fits(fall: Fall) -> bool
    ensures { result ≡ fall_fits fall }
{
    is_fallen(fall.sum) && is_fallen(fall.landed)
}
