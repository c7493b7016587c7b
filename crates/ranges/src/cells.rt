// The cell that a point lies in.
ghost use Rattle.std.specs.Prelude.{◌≡◌};
ghost use Rattle.ranges.specs.Cells.{cell_holding, cell_under};

use boxes::Vec3;
use window::Pos;

/// The cell that a point lies in, on each axis within 2 ^ 26.
pub fn cell_holding(v: Vec3) -> Pos
    ensures { result ≡ cell_holding v }
{
    Pos {
        x: wholes::cell(v.x),
        y: wholes::cell(v.y),
        z: wholes::cell(v.z),
    }
}

/// The cell one lower.
pub fn cell_under(v: Vec3) -> Pos
    ensures { result ≡ cell_under v }
{
    Pos {
        x: wholes::cell(v.x),
        y: wholes::cell(v.y) - 1,
        z: wholes::cell(v.z),
    }
}
