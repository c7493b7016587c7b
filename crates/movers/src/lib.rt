// What moves, in lent numbers: a box and its delta, nine numbers, how they are read, and what is refused of it.
#![tactic(auto)]

ghost use Rattle.std.specs.Prelude.{◌≡◌};
ghost use Rattle.base.specs.Refusals.{verdict};
ghost use Rattle.movers.specs.Movers.{aabb_at, request_of, mover_fits, mover_refusal, whole_move};

use base::Refusal;
use boxes::Aabb;
use sweeps::Request;

// The box that the first six numbers are.
pub fn first_box(numbers: &[f64]) -> Aabb
    ensures { result ≡ aabb_at numbers.now 0 }
{
    Aabb {
        min: bodies::vec_from(numbers, 0),
        max: bodies::vec_from(numbers, 3),
    }
}

// What a move in lent numbers is asked for.
pub fn request_of(mover: &[f64], step: f64, grounded: u32) -> Request
    ensures { result ≡ request_of mover.now step grounded }
{
    Request {
        aabb: first_box(mover),
        delta: bodies::vec_from(mover, 6),
        step,
        on_ground: grounded == 1,
    }
}

#[tactic(auto, using(base::proofs::Cases::cases))]
fn mover_fits(mover: &[f64], sound: bool) -> bool
    ensures { result ≡ mover_fits mover.now sound }
{
    mover.len() == 9
        && sound
        && boxes::is_box(first_box(mover))
        && boxes::is_delta(bodies::vec_from(mover, 6))
}

/// Err(Number), then Err(Place); `sound` says whether what is moved over is.
#[tactic(auto, using(base::proofs::Cases::cases), unfolding(crate::specs::Movers::mover_refusal, base::specs::Choose::choose))]
pub fn check_mover(
    cap: u32,
    mover: &[f64],
    step: f64,
    grounded: u32,
    sound: bool,
) -> Result<(), Refusal>
    ensures { verdict result ≡ mover_refusal cap mover.now step grounded sound }
{
    if !(sweeps::is_cap(cap) && grounded < 2 && boxes::is_step(step)) {
        return Err(Refusal::Number);
    }
    if !mover_fits(mover, sound) {
        return Err(Refusal::Place);
    }
    Ok(())
}

// Whether a move through a window has its lengths, and room for its ten numbers: then the move itself finds what it refuses.
#[tactic(auto, using(base::proofs::Cases::cases))]
pub fn whole_move(mover: &[f64], grounded: u32, places: usize) -> bool
    ensures { result ≡ whole_move mover.now grounded places }
{
    grounded < 2 && mover.len() == 9 && places >= 10
}
