// Boxes in lent numbers, six to a box: they are read where they lie; and what is refused of a move over them.
#![tactic(auto)]

ghost use Rattle.std.specs.Prelude.{◌≡◌, ◌+◌, ◌/◌, ◌<◌, min, length};
ghost use Rattle.base.specs.Refusals.{verdict};
ghost use Rattle.boxes.specs.Limits.{are_boxes};
ghost use Rattle.sweeps.specs.Move.{clip_all};
ghost use Rattle.sweeps.specs.Passes.{clip_along};
ghost use Rattle.movers.specs.Movers.{aabb_at};
ghost use Rattle.lent_boxes.specs.Boxes.{boxes_of, first_boxes, put_in, lent_fit};
ghost use Rattle.lent_boxes.specs.Refusals.{list_refusal};

use base::Refusal;
use boxes::{Aabb, Vec3};
use movers::check_mover;
use sweeps::AxisName;

// How many boxes of n so many numbers hold.
pub fn at_most(n: usize, places: usize) -> usize
    ensures { result ≡ min n (places / 6) }
{
    n.min(places / 6)
}

// The box whose six numbers begin at a place; they are there, so that reading them takes no test.
fn aabb_at(numbers: &[f64], at: usize) -> Aabb
    requires { at + 5 < length numbers.now }
    ensures { result ≡ aabb_at numbers.now at }
{
    Aabb {
        min: Vec3 {
            x: numbers[at],
            y: numbers[at + 1],
            z: numbers[at + 2],
        },
        max: Vec3 {
            x: numbers[at + 3],
            y: numbers[at + 4],
            z: numbers[at + 5],
        },
    }
}

// How far one pass of a move gets along the axis with this number.
fn clip_along_axis(numbers: &[f64], n: usize, axis: u32, mover: Aabb, way: f64) -> f64
    ensures { result ≡ clip_all (clip_along axis) (first_boxes n numbers.now) mover way }
{
    let count = at_most(n, numbers.len());
    let mut d = way;
    for k in 0..count {
        let b = aabb_at(numbers, k * 6);
        d = sweeps::clip_along(axis, b, mover, d);
    }
    d
}

// How far one pass of a move gets along an axis, before the first n boxes or before as many as there are. They are read where they lie: a list of
// them would be made at each call, and copied where it is handed on.
pub fn clip_all<A: AxisName>(numbers: &[f64], n: usize, axis: A, mover: Aabb, way: f64) -> f64
    ensures { result ≡ clip_all (clip_along (A.named axis)) (first_boxes n numbers.now) mover way }
{
    clip_along_axis(numbers, n, axis.number(), mover, way)
}

// A box among the numbers, as the box with this number; one for which there is no room is not put.
pub fn put_box(numbers: &mut [f64], k: usize, b: Aabb)
    ensures { numbers.new ≡ put_in numbers.old k b }
{
    if k >= numbers.len() / 6 {
        return;
    }
    let at = k * 6;
    numbers[at] = b.min.x;
    numbers[at + 1] = b.min.y;
    numbers[at + 2] = b.min.z;
    numbers[at + 3] = b.max.x;
    numbers[at + 4] = b.max.y;
    numbers[at + 5] = b.max.z;
}

fn are_boxes(numbers: &[f64]) -> bool
    ensures { result ≡ are_boxes (boxes_of numbers.now) }
{
    (0..numbers.len() / 6).all(|k| boxes::is_box(aabb_at(numbers, k * 6)))
}

// Whether the numbers are boxes and nothing else.
#[tactic(auto, using(base::proofs::Cases::cases), unfolding(crate::specs::Boxes::lent_fit))]
fn lent_fit(numbers: &[f64]) -> bool
    ensures { result ≡ lent_fit numbers.now }
{
    numbers.len() % 6 == 0 && are_boxes(numbers)
}

/// What a move over lent boxes is refused by: Err(Number), Err(Place), Err(Room) or Err(TooManyBoxes), in this order.
#[tactic(auto, using(base::proofs::Cases::cases, base::proofs::Answers::some_number), unfolding(crate::specs::Refusals::list_refusal, base::specs::Choose::choose))]
pub fn check_list(
    cap: u32,
    boxes: &[f64],
    mover: &[f64],
    step: f64,
    grounded: u32,
    places: usize,
) -> Result<(), Refusal>
    ensures { verdict result ≡ list_refusal cap boxes.now mover.now step grounded places }
{
    check_mover(cap, mover, step, grounded, lent_fit(boxes))?;
    if places < 10 {
        return Err(Refusal::Room);
    }
    if boxes.len() / 6 > sweeps::cap_of(cap) {
        return Err(Refusal::TooManyBoxes);
    }
    Ok(())
}
