// Module 6: the move of a box through the blocks of a window.
#![tactic(auto)]

ghost use Rattle.std.specs.Prelude.{◌≡◌};
ghost use Rattle.base.specs.Refusals.{asked};
ghost use Rattle.sweeps.specs.Lists.{cap_of};
ghost use Rattle.window.specs.Views.{look_in};
ghost use Rattle.passing.specs.Passing.{passes};
ghost use Rattle.through.specs.Through.{move_aabb_past};
ghost use Rattle.through.specs.Few.{cap_within, empty_few, move_from};

use base::Refusal;
use boxes::{Aabb, vectors};
use passing::Stretch;
use ranges::{At, Range};
use sweeps::{MoveResult, Request};
use tables::Tables;
use window::View;

// A list with room for the boxes of nearly every move. A list is filled with zeros before it is used, whatever its room; 42 boxes stay below 2 KB,
// from which on C's memset is slow to start.
#[derive(Clone, Copy)]
struct Few {
    boxes: [Aabb; 42],
    count: usize,
}

impl Few {
    #[tactic(auto, unfolding(crate::specs::Few::empty_few))]
    fn new() -> Few
        ensures { result ≡ empty_few }
    {
        let none = Aabb::new(vectors::zero(), vectors::zero());
        Few {
            boxes: [none; 42],
            count: 0,
        }
    }
}

// How many boxes are collected where there is room for so many, under a cap of the rules.
fn cap_within(most: usize, cap: u32) -> usize
    ensures { result ≡ cap_within most cap }
{
    sweeps::cap_of(cap).min(most)
}

// A move from its range on, with room for every box that a cap allows. It is here that a move is refused with `TooManyBoxes`.
fn crowded(
    cap: u32,
    tables: Tables<'_>,
    view: View<'_>,
    q: Request,
    area: Aabb,
    r: Range,
) -> Result<MoveResult, Refusal>
    ensures { asked result ≡ move_from (cap_of cap) (passes view.entry.words.now view.entry.window r) (look_in view.entry) tables.entry.records.now tables.entry.shapes.now q area r }
{
    let mut room = [0.0; 3072];
    let most = sweeps::cap_of(cap);
    let count = collection::collect_into(&mut room, most, tables, view, area, r)?;
    Ok(lent_moves::moved_over(&room, count, q))
}

// The same with room for 128 boxes, and where more come with room for all. `crowded` is called twice, so that the compiler leaves it, and its room,
// out of this function; and so is this one below.
fn many(
    cap: u32,
    tables: Tables<'_>,
    view: View<'_>,
    q: Request,
    area: Aabb,
    r: Range,
) -> Result<MoveResult, Refusal>
    ensures { asked result ≡ move_from (cap_of cap) (passes view.entry.words.now view.entry.window r) (look_in view.entry) tables.entry.records.now tables.entry.shapes.now q area r }
{
    if r.x.count > 11 && r.z.count > 11 {
        return crowded(cap, tables, view, q, area, r); // one layer of ground is more than 128 boxes
    }
    let mut room = [0.0; 768];
    let most = cap_within(128, cap);
    match collection::collect_into(&mut room, most, tables, view, area, r) {
        Ok(count) => Ok(lent_moves::moved_over(&room, count, q)),
        Err(Refusal::TooManyBoxes) => crowded(cap, tables, view, q, area, r),
        Err(refusal) => Err(refusal),
    }
}

// A move of a few boxes. Collection and passes stand in one function, so that the list is read where it was built: handed on by value, it would be
// copied.
fn swept_through(
    cap: u32,
    tables: Tables<'_>,
    view: View<'_>,
    q: Request,
    area: Aabb,
    r: Range,
) -> Result<MoveResult, Refusal>
    ensures { asked result ≡ move_from (cap_of cap) (passes view.entry.words.now view.entry.window r) (look_in view.entry) tables.entry.records.now tables.entry.shapes.now q area r }
{
    let most = cap_within(42, cap);
    let over = passing::reach_in(view, r);
    let mut layer = Stretch { until: 0, lines: 0 };
    let mut list = Few::new();
    for y in 0..r.y.count {
        layer = passing::lines_at(view, r, over, y, layer);
        for x in 0..layer.lines {
            for z in 0..r.z.count {
                let p = ranges::place(r, At { x, y, z });
                let part = solids::quick_part(tables, view, p)?;
                let shape = part.boxes(tables);
                let n = part.count(shape);
                for k in 0..n {
                    let b = part.quick_aabb(shape, p, k);
                    if b.intersects(area) {
                        if list.count >= most {
                            let told = many(cap, tables, view, q, area, r); // bound first, as in `quick_part`
                            return told;
                        }
                        list.boxes[list.count] = b;
                        list.count += 1;
                    }
                }
            }
        }
    }
    let boxes = &list.boxes[..list.count];
    let mut s = attempts::begun(q);
    for pass in 0..7u32 {
        let axis = sweeps::axis_of(pass);
        let now = s.now;
        let mut d = attempts::wanted(pass, axis, q, now);
        for b in boxes {
            d = sweeps::clip_along(axis, *b, now.aabb, d);
        }
        s = attempts::next_sweep(pass, q, s.first, attempts::gone(pass, axis, now, d));
        if s.over {
            return Ok(sweeps::ended(q, s));
        }
    }
    Ok(sweeps::ended(q, s))
}

/// The move under a cap of the rules. It is refused with `OutsideWindow` and `TooManyBoxes` alone.
pub fn move_through(
    cap: u32,
    tables: Tables<'_>,
    view: View<'_>,
    q: Request,
) -> Result<MoveResult, Refusal>
    ensures { asked result ≡ move_aabb_past (cap_of cap) (passes view.entry.words.now view.entry.window) (look_in view.entry) tables.entry.records.now tables.entry.shapes.now q.aabb q.delta q.step q.on_ground }
{
    let area = collection::swept_area(q.aabb, q.delta, q.step);
    let r = collection::range_of(area);
    if r.x.count > 6 && r.z.count > 6 {
        let told = many(cap, tables, view, q, area, r); // one layer of ground is more than a few boxes
        return told;
    }
    swept_through(cap, tables, view, q, area, r)
}
