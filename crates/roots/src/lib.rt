// Module 1, the square root.
#![tactic(auto)]

mod root;

ghost use Rattle.std.specs.Prelude.{◌≡◌};
ghost use Rattle.floats.specs.Numbers.{answered, answer_where};
ghost use Rattle.roots.specs.Root.{has_root, root_of};

use base::Refusal;

/// The f64 nearest to the root of x: Err(Place) where x is not finite, or is below zero.
pub fn sqrt(x: f64) -> Result<f64, Refusal>
    ensures { answered result ≡ answer_where (has_root x) (root_of x) }
{
    let infinity = f64::from_bits(0x7ff0_0000_0000_0000);
    if x > 0.0 && x < infinity {
        let b = f64::to_bits(x);
        let r = root::root_bits(b);
        return Ok(f64::from_bits(r));
    }
    if x == 0.0 { Ok(x) } else { Err(Refusal::Place) }
}
