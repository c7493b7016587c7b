// The axis of a pass, the clip along it, and what a move comes to whose passes are over. It is public: the moves over a capped list, through a
// window and over lent boxes make their passes where their boxes lie.
ghost use Rattle.std.specs.Prelude.{◌≡◌};
ghost use Rattle.base.specs.Refusals.{asked};
ghost use Rattle.sweeps.specs.Entry.{refused_move, move_answer};
ghost use Rattle.sweeps.specs.Move.{stopped_falling};
ghost use Rattle.sweeps.specs.Passes.{axis_number, axis_of, clip_along, end_of_move};

use crate::{Along, AxisName, MoveResult, Request, Sweep};
use base::Refusal;
use boxes::{Aabb, vectors};

// The axes in the order of the passes.
const ORDER: [Along; 3] = [Along::Y, Along::X, Along::Z];

pub fn axis_of(pass: u32) -> Along
    ensures { axis_number result ≡ axis_of pass }
{
    let k = (pass % 3) as usize;
    ORDER[k]
}

#[tactic(auto, using(base::proofs::Cases::cases), unfolding(crate::specs::Passes::clip_along, base::specs::Choose::choose))]
pub fn clip_along<A: AxisName>(axis: A, b: Aabb, mover: Aabb, d: f64) -> f64
    ensures { result ≡ clip_along (A.named axis) b mover d }
{
    match axis.number() {
        0 => b.clip_x(mover, d),
        1 => b.clip_y(mover, d),
        _ => b.clip_z(mover, d),
    }
}

// A downward way dy was stopped: it came to y.
pub fn stopped_falling(dy: f64, y: f64) -> bool
    ensures { result ≡ stopped_falling dy y }
{
    dy < 0.0 && y != dy
}

// What a move comes to whose passes are over. The flag is worked out after the step, from the attempt that was kept.
pub fn ended(q: Request, s: Sweep) -> MoveResult
    ensures { result ≡ end_of_move q s }
{
    let kept = s.now;
    MoveResult {
        aabb: kept.aabb,
        moved: kept.moved,
        on_ground: stopped_falling(q.delta.y, kept.moved.y),
    }
}

impl MoveResult {
    // What a refused move returns: its box, moved zero, ground false.
    pub fn refused(aabb: Aabb) -> MoveResult
        ensures { result ≡ refused_move aabb }
    {
        MoveResult {
            aabb,
            moved: vectors::zero(),
            on_ground: false,
        }
    }

    /// What a move of this box comes to, refused or made.
    pub fn handed(aabb: Aabb, answer: Result<MoveResult, Refusal>) -> MoveResult
        ensures { result ≡ (move_answer aabb (asked answer)).result }
    {
        match answer {
            Ok(made) => made,
            Err(_) => MoveResult::refused(aabb),
        }
    }
}
