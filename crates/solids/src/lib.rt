// What stands in a cell, and its boxes one by one: the lowest part of module 6.
#![tactic(auto)]

ghost use Rattle.std.specs.Prelude.{◌≡◌};
ghost use Rattle.base.specs.Refusals.{asked_as};
ghost use Rattle.tables.specs.Tables.{box_at};
ghost use Rattle.window.specs.Views.{look_in};
ghost use Rattle.solids.specs.Shapes.{origin_of, cube_at, to_aabb, connected_shape, cell_shape};
ghost use Rattle.solids.specs.Parts.{shape_in, part_boxes, count_of, nth_aabb};

use base::Refusal;
use boxes::{Aabb, Vec3};
use tables::Tables;
use window::{Pos, View};

/// What stands in a cell: a full cube, or `count` boxes of the shapes from box `first` on.
#[derive(Clone, Copy)]
pub enum Shape {
    Cube,
    Part { first: u32, count: u32 },
}

impl Shape {
    /// Its boxes, as a part of the lent shapes: nothing of a cube, and nothing where the part is not there whole.
    pub fn boxes(self, tables: Tables<'_>) -> &[f32]
        ensures { result.now ≡ part_boxes tables.entry.shapes.now self }
    {
        match self {
            Shape::Cube => &tables.shapes[0..0],
            Shape::Part { first, count } => tables.part(first, count),
        }
    }

    /// How many boxes the cell has, of which `boxes` answered `part`.
    #[tactic(auto, using(base::proofs::Cases::cases), unfolding(base::specs::Choose::choose))]
    pub fn count(self, part: &[f32]) -> u32
        ensures { result ≡ count_of self part.now }
    {
        match self {
            Shape::Cube => 1,
            Shape::Part { count, .. } => { if part.is_empty() { 0 } else { count } }
        }
    }

    /// Box k of the cell at p, in the world's coordinates.
    pub fn aabb(self, part: &[f32], p: Pos, k: u32) -> Aabb
        ensures { result ≡ nth_aabb self part.now p k }
    {
        match self {
            Shape::Cube => cube_at(p),
            Shape::Part { .. } => read_aabb(part, k).offset(origin_of(p)),
        }
    }

    /// The same for the loop of the move alone, as with `quick_part`.
    pub fn quick_aabb(self, part: &[f32], p: Pos, k: u32) -> Aabb
        ensures { result ≡ nth_aabb self part.now p k }
    {
        match self {
            Shape::Cube => cube_at(p),
            Shape::Part { .. } => shape_aabb(part, k).offset(origin_of(p)),
        }
    }
}

fn origin_of(p: Pos) -> Vec3
    ensures { result ≡ origin_of p }
{
    Vec3 {
        x: f64::from(p.x),
        y: f64::from(p.y),
        z: f64::from(p.z),
    }
}

fn cube_at(p: Pos) -> Aabb
    ensures { result ≡ cube_at p }
{
    let o = origin_of(p);
    let far = Vec3 {
        x: o.x + 1.0,
        y: o.y + 1.0,
        z: o.z + 1.0,
    };
    Aabb { min: o, max: far }
}

// What a registered record at p has beside its neighbours. It goes in place, so that its two words are handed on in registers: `connected_state` is
// called.
#[inline(always)]
#[tactic(auto, using(base::proofs::Cases::cases), unfolding(crate::specs::Shapes::connected_shape, base::specs::Choose::choose))]
fn part_of(tables: Tables<'_>, view: View<'_>, p: Pos, id: u32) -> Result<Shape, Refusal>
    ensures { asked_as shape_in result ≡ connected_shape (look_in view.entry) tables.entry.records.now p id }
{
    let state = connect::connected_state(tables, view, p, id)?;
    Ok(Shape::Part {
        first: tables.word(state, 7),
        count: tables.word(state, 8),
    })
}

/// What stands in the cell at p. It goes in place in the loops of a collection.
#[inline(always)]
#[tactic(auto, using(base::proofs::Cases::cases), unfolding(crate::specs::Shapes::cell_shape, crate::specs::Shapes::shape_of, base::specs::Choose::choose))]
pub fn part_at(tables: Tables<'_>, view: View<'_>, p: Pos) -> Result<Shape, Refusal>
    ensures { asked_as shape_in result ≡ cell_shape (look_in view.entry) tables.entry.records.now p }
{
    match view.look(p)? {
        None => Ok(Shape::Cube),
        Some(id) if tables.is_registered(id) => part_of(tables, view, p, id),
        Some(_) => Ok(Shape::Part { first: 0, count: 0 }),
    }
}

// The same, called: for what the loop of the move seldom meets.
#[cold]
#[inline(never)]
fn part_apart(tables: Tables<'_>, view: View<'_>, p: Pos) -> Result<Shape, Refusal>
    ensures { asked_as shape_in result ≡ cell_shape (look_in view.entry) tables.entry.records.now p }
{
    part_at(tables, view, p)
}

/// The same for the loop of the move, and for that alone: the compiler puts a function of this size in place for one caller, and with two it is
/// called for each cell. A record that connects as nothing has its own boxes, and is done with here.
#[tactic(auto, using(base::proofs::Cases::cases), unfolding(crate::specs::Shapes::cell_shape, crate::specs::Shapes::shape_of, tables::specs::Tables::is_registered, base::specs::Choose::choose))]
pub fn quick_part(tables: Tables<'_>, view: View<'_>, p: Pos) -> Result<Shape, Refusal>
    ensures { asked_as shape_in result ≡ cell_shape (look_in view.entry) tables.entry.records.now p }
{
    match view.look(p) {
        Ok(Some(id)) => {
            let h = tables.head(id);
            if h.registered {
                if h.kind == 0 {
                    return Ok(Shape::Part {
                        first: h.first,
                        count: h.count,
                    });
                }
                let told = part_of(tables, view, p, id); // returned at once, every answer would go through memory
                return told;
            }
            part_apart(tables, view, p)
        }
        Ok(None) | Err(_) => part_apart(tables, view, p),
    }
}

// Box k of a shape, number by number.
fn read_aabb(shape: &[f32], k: u32) -> Aabb
    ensures { result ≡ to_aabb (box_at shape.now k) }
{
    let i = k as usize * 6;
    Aabb {
        min: Vec3 {
            x: tables::float_at(shape, i),
            y: tables::float_at(shape, i + 1),
            z: tables::float_at(shape, i + 2),
        },
        max: Vec3 {
            x: tables::float_at(shape, i + 3),
            y: tables::float_at(shape, i + 4),
            z: tables::float_at(shape, i + 5),
        },
    }
}

// The same, all at once where they are there.
fn shape_aabb(shape: &[f32], k: u32) -> Aabb
    ensures { result ≡ to_aabb (box_at shape.now k) }
{
    let b = tables::box_at(shape, k);
    Aabb {
        min: Vec3 {
            x: b.x0,
            y: b.y0,
            z: b.z0,
        },
        max: Vec3 {
            x: b.x1,
            y: b.y1,
            z: b.z1,
        },
    }
}
