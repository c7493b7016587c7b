// The move over boxes in lent numbers.
#![tactic(auto)]

ghost use Rattle.std.specs.Prelude.{◌≡◌, length};
ghost use Rattle.base.specs.Refusals.{verdict};
ghost use Rattle.sweeps.specs.Move.{move_over};
ghost use Rattle.lent_numbers.specs.Written.{written_by};
ghost use Rattle.lent_boxes.specs.Boxes.{first_boxes};
ghost use Rattle.lent_moves.specs.Moves.{move_list_of, move_any_of};

use base::Refusal;
use lent_boxes::{check_list, clip_all};
use lent_numbers::put_result;
use movers::request_of;
use sweeps::{MoveResult, Request};

// The move over the first n boxes, or over as many as there are.
pub fn moved_over(numbers: &[f64], n: usize, q: Request) -> MoveResult
    ensures { result ≡ move_over (first_boxes n numbers.now) q.aabb q.delta q.step q.on_ground }
{
    let mut s = attempts::begun(q);
    for pass in 0..7u32 {
        let axis = sweeps::axis_of(pass);
        let now = s.now;
        let mover = now.aabb;
        let way = attempts::wanted(pass, axis, q, now);
        let d = clip_all(numbers, n, axis, mover, way);
        s = attempts::next_sweep(pass, q, s.first, attempts::gone(pass, axis, now, d));
        if s.over {
            return sweeps::ended(q, s);
        }
    }
    sweeps::ended(q, s)
}

/// The move of a box over boxes, for a host, who may hand over anything. It writes ten numbers, or writes nothing and is refused: Err(Number),
/// Err(Place), Err(Room) or Err(TooManyBoxes).
#[tactic(auto, using(base::proofs::Cases::cases, base::proofs::Answers::some_number), unfolding(crate::specs::Moves::move_list_of, lent_numbers::specs::Written::written_by, base::specs::Choose::choose))]
pub fn move_over_lent(
    cap: u32,
    boxes: &[f64],
    mover: &[f64],
    step: f64,
    grounded: u32,
    out: &mut [f64],
) -> Result<(), Refusal>
    ensures value { verdict result ≡ (move_list_of cap boxes.now mover.now step grounded (length out.old)).refusal }
    ensures out_after { out.new ≡ written_by out.old (move_list_of cap boxes.now mover.now step grounded (length out.old)) }
{
    check_list(cap, boxes, mover, step, grounded, out.len())?;
    let q = request_of(mover, step, grounded);
    put_result(out, moved_over(boxes, boxes.len() / 6, q));
    Ok(())
}

/// The same for any numbers, to be timed beside the original: it looks at no limit, takes what is not there for 0 and drops what there is no
/// room for. For more boxes than a list holds it writes nothing: Err(TooManyBoxes).
#[tactic(auto, using(base::proofs::Cases::cases, base::proofs::Answers::some_number), unfolding(crate::specs::Moves::move_any_of, lent_numbers::specs::Written::written_by, base::specs::Choose::choose))]
pub fn move_over_any(
    boxes: &[f64],
    mover: &[f64],
    step: f64,
    grounded: u32,
    out: &mut [f64],
) -> Result<(), Refusal>
    ensures value { verdict result ≡ (move_any_of boxes.now mover.now step grounded).refusal }
    ensures out_after { out.new ≡ written_by out.old (move_any_of boxes.now mover.now step grounded) }
{
    let count = boxes.len() / 6;
    if count > sweeps::ROOM {
        return Err(Refusal::TooManyBoxes);
    }
    let q = request_of(mover, step, grounded);
    put_result(out, moved_over(boxes, count, q));
    Ok(())
}
