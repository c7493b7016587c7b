// What the types of a move's parameters say, as contracts: code that holds them meets the premises `TypedMove`, `TypedList` and `TypedShapes` of the
// theorems off the grid, whatever it was handed. No host links it.
#![tactic(auto)]

ghost use Rattle.std.specs.Prelude.{◌≡◌, true, ◌<◌, T, get_or};
ghost use Rattle.sweeps.specs.Lists.{room, no_box};
ghost use Rattle.off_grid.specs.Demand.{box_f64, TypedMove};
ghost use Rattle.off_grid_window.specs.Demand.{TypedShapes};

use boxes::{Aabb, Vec3};
use sweeps::BoxList;

pub fn typed_move(aabb: Aabb, delta: Vec3, step: f64) -> bool
    ensures value { result ≡ true }
    ensures typed { TypedMove aabb delta step }
{
    true
}

fn yes() -> bool
    ensures { result ≡ true }
{
    true
}

pub fn typed_shapes(shapes: &[f32]) -> bool
    ensures value { result ≡ true }
    ensures typed { TypedShapes shapes.now }
{
    yes()
}

fn typed_box(b: Aabb) -> bool
    ensures value { result ≡ true }
    ensures typed { T (box_f64 b) }
{
    true
}

// of the box at any place of a capped list
pub fn typed_at(list: BoxList, i: usize) -> bool
    ensures value { result ≡ true }
    ensures typed { i < room → T (box_f64 (get_or list.boxes i no_box)) }
{
    if i < sweeps::ROOM {
        let b = list.boxes[i];
        return typed_box(b);
    }
    true
}
