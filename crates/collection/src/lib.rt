// Module 6: collection of block boxes from a window.
#![tactic(auto)]

ghost use Rattle.std.specs.Prelude.{◌≡◌, ◌≤◌, min};
ghost use Rattle.base.specs.Refusals.{asked};
ghost use Rattle.sweeps.specs.Lists.{room, cap_of, held_in};
ghost use Rattle.lent_boxes.specs.Boxes.{at_most};
ghost use Rattle.passing.specs.Passing.{passes};
ghost use Rattle.ranges.specs.Ranges.{trimmed};
ghost use Rattle.solids.specs.Parts.{part_boxes, count_of, nth_aabb};
ghost use Rattle.window.specs.Views.{look_in};
ghost use Rattle.collection.specs.Collect.{range_of, swept_area, collect_block_boxes, collides_with_blocks};
ghost use Rattle.collection.specs.Past.{none, collect_in_past};
ghost use Rattle.collection.specs.Answers.{held_asked, held_lent, counted};

use base::Refusal;
use boxes::{Aabb, Vec3};
use passing::Stretch;
use ranges::{At, Range};
use solids::Shape;
use sweeps::BoxList;
use tables::Tables;
use window::{Pos, View};

/// The area that a move sweeps: towards its delta, and up by the step height.
pub fn swept_area(aabb: Aabb, delta: Vec3, step: f64) -> Aabb
    ensures { result ≡ swept_area aabb delta step }
{
    aabb.expand_towards(delta)
        .expand_towards(Vec3::new(0.0, step, 0.0))
}

/// The cells that the area reaches.
pub fn range_of(area: Aabb) -> Range
    ensures { result ≡ trimmed (range_of area) }
{
    ranges::trim(Range {
        x: ranges::cells_between(area.min.x, area.max.x),
        y: ranges::layers_between(area.min.y, area.max.y),
        z: ranges::cells_between(area.min.z, area.max.z),
    })
}

// How many boxes a cell has of which `part_at` answered this.
fn count_in(tables: Tables<'_>, part: Shape) -> u32
    ensures { result ≡ count_of part (part_boxes tables.entry.shapes.now part) }
{
    part.count(part.boxes(tables))
}

// Box k of the cell at p.
fn box_in(tables: Tables<'_>, part: Shape, p: Pos, k: u32) -> Aabb
    ensures { result ≡ nth_aabb part (part_boxes tables.entry.shapes.now part) p k }
{
    part.aabb(part.boxes(tables), p, k)
}

// The boxes of every cell of a range, which strictly overlap the area: as many as the cap says and as a list has room for, and with one more it
// is refused with `TooManyBoxes`. The list is built in place.
fn collect_up_to(
    cap: usize,
    tables: Tables<'_>,
    view: View<'_>,
    area: Aabb,
    r: Range,
) -> Result<BoxList, Refusal>
    ensures { held_in result ≡ held_asked (collect_in_past none (min cap room) (look_in view.entry) tables.entry.records.now tables.entry.shapes.now area r) }
{
    let most = sweeps::counted(cap);
    let mut list = BoxList::new();
    for y in 0..r.y.count {
        for x in 0..r.x.count {
            for z in 0..r.z.count {
                let p = ranges::place(r, At { x, y, z });
                let part = solids::part_at(tables, view, p)?;
                let n = count_in(tables, part);
                for k in 0..n {
                    let b = box_in(tables, part, p, k);
                    if b.intersects(area) {
                        let i = list.count;
                        if i >= most {
                            return Err(Refusal::TooManyBoxes);
                        }
                        list.boxes[i] = b;
                        list.count = i + 1;
                    }
                }
            }
        }
    }
    Ok(list)
}

/// The same into lent numbers, six to a box, for the move: as many as the cap says and as there is room for, and with one more it is refused with
/// `TooManyBoxes`; from the cells of a range that is known already, by the summary behind the window's words where there is one. Answers how many
/// boxes there are. It is refused with `OutsideWindow` and `TooManyBoxes` alone. What it calls for each cell and box, it calls alone, so that the
/// compiler puts it in place.
pub fn collect_into(
    room: &mut [f64],
    cap: usize,
    tables: Tables<'_>,
    view: View<'_>,
    area: Aabb,
    r: Range,
) -> Result<usize, Refusal>
    ensures room_after { held_lent result room.new ≡ held_asked (collect_in_past (passes view.entry.words.now view.entry.window r) (at_most cap room.old) (look_in view.entry) tables.entry.records.now tables.entry.shapes.now area r) }
    ensures count_bound { counted result ≤ at_most cap room.old }
{
    let most = lent_boxes::at_most(cap, room.len());
    let over = passing::reach_in(view, r);
    let mut layer = Stretch { until: 0, lines: 0 };
    let mut count = 0usize;
    for y in 0..r.y.count {
        layer = passing::lines_at(view, r, over, y, layer);
        let lines = layer.lines;
        for x in 0..lines {
            for z in 0..r.z.count {
                let p = ranges::place(r, At { x, y, z });
                let part = solids::part_at(tables, view, p)?;
                let shape = part.boxes(tables);
                let n = part.count(shape);
                for k in 0..n {
                    let b = part.aabb(shape, p, k);
                    if b.intersects(area) {
                        if count >= most {
                            return Err(Refusal::TooManyBoxes);
                        }
                        lent_boxes::put_box(room, count, b);
                        count += 1;
                    }
                }
            }
        }
    }
    Ok(count)
}

/// The same from the cells that the area reaches, each of them.
pub fn collect(cap: u32, tables: Tables<'_>, view: View<'_>, area: Aabb) -> Result<BoxList, Refusal>
    ensures { held_in result ≡ held_asked (collect_block_boxes (cap_of cap) (look_in view.entry) tables.entry.records.now tables.entry.shapes.now area) }
{
    collect_up_to(sweeps::cap_of(cap), tables, view, area, range_of(area))
}

/// Whether a block box strictly overlaps the area. It stops at its first hit: no cell after that is asked for. It is refused with `OutsideWindow`
/// alone. A collection with room for no box does the same, and its `TooManyBoxes` is the hit.
pub fn collides(tables: Tables<'_>, view: View<'_>, area: Aabb) -> Result<bool, Refusal>
    ensures { asked result ≡ collides_with_blocks (look_in view.entry) tables.entry.records.now tables.entry.shapes.now area }
{
    match collect_up_to(0, tables, view, area, range_of(area)) {
        Ok(_) => Ok(false),
        Err(Refusal::TooManyBoxes) => Ok(true),
        Err(refusal) => Err(refusal),
    }
}
