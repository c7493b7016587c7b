// Numbers written into lent places, and what a move comes to among them. A number whose place is not there is dropped. told.rt says what may tell of a
// move.
#![tactic(auto)]

mod told;

ghost use Rattle.std.specs.Prelude.{◌≡◌, [], ◌∷◌, set};
ghost use Rattle.base.specs.Loop.{stored};
ghost use Rattle.lent_numbers.specs.Written.{flag_of, flagged, numbers_of, written_asked};

use boxes::Vec3;
use sweeps::MoveResult;
pub use told::MoveTold;

pub fn put(out: &mut [f64], i: usize, x: f64)
    ensures { out.new ≡ set out.old i x }
{
    if i < out.len() {
        out[i] = x;
    }
}

pub fn flag_of(holds: bool) -> f64
    ensures { result ≡ flag_of holds }
{
    if holds { 1.0 } else { 0.0 }
}

#[tactic(auto, unfolding(base::specs::Loop::stored))]
pub fn put_vec(out: &mut [f64], i: u8, v: Vec3)
    ensures { out.new ≡ stored out.old i (v.x ∷ v.y ∷ v.z ∷ []) }
{
    let k = i as usize;
    put(out, k, v.x);
    put(out, k + 1, v.y);
    put(out, k + 1 + 1, v.z);
}

// Four numbers, as `flagged` has them.
#[tactic(auto, unfolding(base::specs::Loop::stored))]
pub fn put_flagged(out: &mut [f64], v: Vec3, holds: bool)
    ensures { out.new ≡ stored out.old 0 (flagged v holds) }
{
    put_vec(out, 0, v);
    put(out, 3, flag_of(holds));
}

// Ten numbers, as `numbers_of` has them.
#[tactic(auto, unfolding(base::specs::Loop::stored, crate::specs::Written::numbers_of))]
pub fn put_result(out: &mut [f64], m: MoveResult)
    ensures { out.new ≡ stored out.old 0 (numbers_of m) }
{
    put_vec(out, 0, m.aabb.min);
    put_vec(out, 3, m.aabb.max);
    put_vec(out, 6, m.moved);
    put(out, 9, flag_of(m.on_ground));
}

/// What a move comes to: ten numbers, or a refusal, which writes nothing.
pub fn move_into<A: MoveTold>(out: &mut [f64], answer: A) -> A::Said
    ensures value { A.Said.says result ≡ A.says answer }
    ensures out_after { out.new ≡ written_asked out.old (A.answer answer) }
{
    if let Some(m) = answer.made() {
        put_result(out, m);
    }
    answer.said()
}
