// Module 7, without asking for a cell: the four sides of a liquid's cell, by how much the liquid on a side is deeper, and what the sides add to a flow.
#![tactic(auto)]

ghost use Rattle.std.specs.Prelude.{◌≡◌, ◌&&◌, not, leb};
ghost use Rattle.flow_sides.specs.Sides.{side_step, unit_to, effective_depth, difference_to, difference_below, flowed_by, side_of, normalised_flow};

use boxes::Vec3;
use boxes::vectors::{add_scaled, normalize_or_zero, scale, subtract, unit_y};
use cover::Side;
use window::CellStep;

/// The four sides in the Rust's order.
pub const SIDES: [Side; 4] = [Side::East, Side::West, Side::South, Side::North];

/// Side k of these four, and the last of them for every number above.
#[tactic(auto, using(base::proofs::Cases::cases), unfolding(crate::specs::Sides::side_of, base::specs::Choose::choose))]
pub fn side_of(k: u32) -> Side
    ensures { result ≡ side_of k }
{
    match k {
        0 => SIDES[0],
        1 => SIDES[1],
        2 => SIDES[2],
        _ => SIDES[3],
    }
}

/// The way to the cell on a side, y cells up.
pub fn side_step(side: Side, y: i8) -> CellStep
    ensures { result ≡ side_step side y }
{
    match side {
        Side::North => CellStep { x: 0, y, z: -1 },
        Side::East => CellStep { x: 1, y, z: 0 },
        Side::South => CellStep { x: 0, y, z: 1 },
        Side::West => CellStep { x: -1, y, z: 0 },
    }
}

/// The way to a side, one block long.
#[tactic(auto, unfolding(crate::specs::Sides::unit_to))]
pub fn unit_to(side: Side) -> Vec3
    ensures { result ≡ unit_to side }
{
    match side {
        Side::North => Vec3::new(0.0, 0.0, -1.0),
        Side::East => Vec3::new(1.0, 0.0, 0.0),
        Side::South => Vec3::new(0.0, 0.0, 1.0),
        Side::West => Vec3::new(-1.0, 0.0, 0.0),
    }
}

/// The depth that is compared: that of a falling liquid, 8 and above, counts as 0.
#[tactic(auto, using(base::proofs::Cases::cases), unfolding(crate::specs::Sides::effective_depth, base::specs::Choose::choose))]
pub fn effective_depth(depth: u32) -> u8
    ensures { result ≡ effective_depth depth }
{
    if depth >= 8 { 0 } else { depth as u8 }
}

/// By how much a liquid beside is deeper.
#[tactic(auto, using(std::proofs::lemmas::Int::ints), unfolding(crate::specs::Sides::difference_to))]
pub fn difference_to(other: u8, depth: u8) -> f64
    ensures { result ≡ difference_to other depth }
{
    f64::from(i32::from(other) - i32::from(depth))
}

/// By how much a liquid is deeper that lies beside, one cell lower.
#[tactic(auto, using(std::proofs::lemmas::Int::ints), unfolding(crate::specs::Sides::difference_below))]
pub fn difference_below(other: u8, depth: u8) -> f64
    ensures { result ≡ difference_below other depth }
{
    f64::from(i32::from(other) - (i32::from(depth) - 8))
}

/// A flow and what a side adds to it, by how much the liquid there is deeper.
#[tactic(auto, unfolding(crate::specs::Sides::flowed_by))]
pub fn flow_by(flow: Vec3, side: Side, difference: Option<f64>) -> Vec3
    ensures { result ≡ flowed_by flow side difference }
{
    match difference {
        Some(d) => add_scaled(flow, unit_to(side), d),
        None => flow,
    }
}

/// Whether walls are asked for: of a falling liquid, until one is found.
pub fn asks_walls(depth: u32, walled: bool) -> bool
    ensures { result ≡ leb 8 depth && not walled }
{
    8 <= depth && !walled
}

/// The flow that the four sides come to; beside a wall it sinks.
#[tactic(auto, using(base::proofs::Cases::cases), unfolding(crate::specs::Sides::normalised_flow, base::specs::Choose::choose))]
pub fn normalised_flow(flow: Vec3, walled: bool) -> Vec3
    ensures { result ≡ normalised_flow flow walled }
{
    if walled {
        let sinking = subtract(normalize_or_zero(flow), scale(unit_y(), 6.0));
        return normalize_or_zero(sinking);
    }
    normalize_or_zero(flow)
}
