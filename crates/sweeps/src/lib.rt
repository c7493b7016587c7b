// The move of a box over boxes: its records. list.rt has the capped list, and passes.rt the axes and the end of a move.
#![tactic(auto)]

mod list;
mod passes;

ghost use Rattle.std.specs.Prelude.{◌≡◌, ℕ};
ghost use Rattle.sweeps.specs.Passes.{axis_number};

use boxes::{Aabb, Vec3};
pub use list::{cap_of, counted, is_cap};
pub use passes::{axis_of, clip_along, ended, stopped_falling};

// How many boxes a list has room for.
pub const ROOM: usize = 512;

// The capped list: room for 512 boxes and a count. It is an array with its count beside it, since there is no heap, and it goes by value.
#[derive(Clone, Copy)]
pub struct BoxList {
    pub boxes: [Aabb; ROOM],
    pub count: usize,
}

/// What a pass goes along.
#[derive(Clone, Copy, Debug, PartialEq, Eq)]
pub enum Along {
    X,
    Y,
    Z,
}

/// What names an axis: an `Along`, or the number of one, 0 for x, 1 for y and 2 for z, for a caller that counts them.
pub trait AxisName: Copy {
    ghost named: { Self → ℕ };

    fn number(self) -> u32
        ensures { result ≡ named self };
}

impl AxisName for Along {
    ghost named = { axis_number };

    #[tactic(auto, using(base::proofs::Cases::cases))]
    fn number(self) -> u32 {
        match self {
            Along::X => 0,
            Along::Y => 1,
            Along::Z => 2,
        }
    }
}

impl AxisName for u32 {
    ghost named = { λ n. n };

    fn number(self) -> u32 {
        self
    }
}

// A box that has moved, and by how much.
#[derive(Clone, Copy)]
pub struct Swept {
    pub aabb: Aabb,
    pub moved: Vec3,
}

// What a move comes to: the box after it, the way that it went, and whether a downward move was stopped.
#[derive(Clone, Copy)]
pub struct MoveResult {
    pub aabb: Aabb,
    pub moved: Vec3,
    pub on_ground: bool,
}

// What a move is asked for.
#[derive(Clone, Copy)]
pub struct Request {
    pub aabb: Aabb,
    pub delta: Vec3,
    pub step: f64,
    pub on_ground: bool,
}

// Where a move stands between two passes: the attempt at hand, the first attempt, and whether the move is over.
#[derive(Clone, Copy)]
pub struct Sweep {
    pub now: Swept,
    pub first: Swept,
    pub over: bool,
}
