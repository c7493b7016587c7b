// The move over a capped list. All passes of a move stand in one loop of one function: a list goes by value, and each call that takes it may
// copy it.
#![tactic(auto)]

ghost use Rattle.std.specs.Prelude.{◌≡◌};
ghost use Rattle.base.specs.Refusals.{asked, verdict};
ghost use Rattle.boxes.specs.Limits.{are_boxes};
ghost use Rattle.sweeps.specs.Lists.{list_of};
ghost use Rattle.sweeps.specs.Move.{clip_sequence, move_over};
ghost use Rattle.sweeps.specs.Passes.{sweep_of};
ghost use Rattle.sweeps.specs.Entry.{refusal_of, move_answer, move_over_list};

use base::Refusal;
use boxes::{Aabb, Vec3, is_box, is_delta, is_step};
use sweeps::{BoxList, MoveResult, Request, Sweep, Swept};

// All passes of a move over a list. The axis is fixed while the boxes are gone through.
pub fn swept_over(list: BoxList, q: Request) -> Sweep
    ensures { result ≡ sweep_of (list_of list) q }
{
    let boxes = list.as_slice();
    let mut s = attempts::begun(q);
    for pass in 0..7u32 {
        let axis = sweeps::axis_of(pass);
        let now = s.now;
        let mut d = attempts::wanted(pass, axis, q, now);
        for b in boxes {
            d = sweeps::clip_along(axis, *b, now.aabb, d);
        }
        s = attempts::next_sweep(pass, q, s.first, attempts::gone(pass, axis, now, d));
        if s.over {
            return s;
        }
    }
    s
}

// The move of a box over a list, for any boxes and any numbers.
pub fn move_over(list: BoxList, q: Request) -> MoveResult
    ensures { result ≡ move_over (list_of list) q.aabb q.delta q.step q.on_ground }
{
    sweeps::ended(q, swept_over(list, q))
}

// One attempt: y, then x, then z. It is the move that may not step up.
pub fn clip_sequence(list: BoxList, aabb: Aabb, delta: Vec3) -> Swept
    ensures { result ≡ clip_sequence (list_of list) aabb delta }
{
    let s = swept_over(
        list,
        Request {
            aabb,
            delta,
            step: 0.0,
            on_ground: false,
        },
    );
    s.now
}

fn are_boxes(boxes: &[Aabb]) -> bool
    ensures { result ≡ are_boxes boxes.now }
{
    boxes.iter().all(|b| is_box(*b))
}

/// Err(Number), then Err(Place), then Err(TooManyBoxes); `sound` says whether the list's boxes are boxes.
#[tactic(auto, using(base::proofs::Cases::cases), unfolding(base::specs::Choose::choose))]
pub fn check_move(cap: u32, q: Request, sound: bool, count: usize) -> Result<(), Refusal>
    ensures { verdict result ≡ refusal_of cap q.aabb q.delta q.step sound count }
{
    if !(sweeps::is_cap(cap) && is_step(q.step)) {
        return Err(Refusal::Number);
    }
    if !(is_box(q.aabb) && is_delta(q.delta) && sound) {
        return Err(Refusal::Place);
    }
    if count > sweeps::cap_of(cap) {
        return Err(Refusal::TooManyBoxes);
    }
    Ok(())
}

/// The move over a list that is handed in: Err(Number), Err(Place) or Err(TooManyBoxes) for what breaks a limit.
#[tactic(auto, using(base::proofs::Cases::cases), unfolding(sweeps::specs::Entry::move_over_list, base::specs::Choose::choose))]
pub fn move_over_list(cap: u32, list: BoxList, q: Request) -> Result<MoveResult, Refusal>
    ensures { move_answer q.aabb (asked result) ≡ move_over_list cap list q.aabb q.delta q.step q.on_ground }
{
    check_move(cap, q, are_boxes(list.as_slice()), list.count)?;
    Ok(move_over(list, q))
}
