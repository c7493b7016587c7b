// What a picture of a move shows: the boxes that the move collects, in lent numbers. A picture's host links it beside `exports`; no host of a
// tick does.
#![tactic(auto)]

ghost use Rattle.std.specs.Prelude.{◌≡◌, length, get_or};
ghost use Rattle.base.specs.Loop.{stored};
ghost use Rattle.base.specs.Refusals.{verdict};
ghost use Rattle.sweeps.specs.Lists.{no_box, held_in};
ghost use Rattle.window.specs.Numbers.{window_of};
ghost use Rattle.shown.specs.Shown.{swept_by, collected_at, numbers_at, box_written};

use base::Refusal;
use boxes::{Aabb, vectors};
use lent_numbers::{put, put_vec};
use sweeps::BoxList;
use tables::Tables;
use window::View;

// The area that a move sweeps: towards its delta, and up by the step height.
fn swept_by(mover: &[f64], step: f64) -> Aabb
    ensures { result ≡ swept_by mover.now step }
{
    let aabb = movers::first_box(mover);
    let delta = bodies::vec_from(mover, 6);
    collection::swept_area(aabb, delta, step)
}

// What the move collects; 1 to 4 and 11 come before any cell is asked for.
#[tactic(auto, using(base::proofs::Cases::cases), unfolding(crate::specs::Shown::collected_at, base::specs::Choose::choose))]
fn collected(
    cap: u32,
    tables: Tables<'_>,
    view: View<'_>,
    mover: &[f64],
    step: f64,
    places: usize,
) -> Result<BoxList, Refusal>
    ensures { held_in result ≡ collected_at cap tables.entry.records.now tables.entry.shapes.now view.entry.words.now view.entry.window mover.now step places }
{
    lent::check_direct(tables, view)?;
    movers::check_mover(cap, mover, step, 0, true)?;
    if places < 7 {
        return Err(Refusal::Room);
    }
    collection::collect(cap, tables, view, swept_by(mover, step))
}

fn nth_box(boxes: &[Aabb], k: u32) -> Aabb
    ensures { result ≡ get_or boxes.now k no_box }
{
    let none = Aabb::new(vectors::zero(), vectors::zero());
    boxes.get(k as usize).copied().unwrap_or(none)
}

// Seven numbers, as `numbers_at` has them.
#[tactic(auto, unfolding(base::specs::Loop::stored))]
fn put_nth(out: &mut [f64], boxes: &[Aabb], k: u32)
    ensures { out.new ≡ stored out.old 0 (numbers_at boxes.now k) }
{
    let b = nth_box(boxes, k);
    put(out, 0, std::num::nearest_usize_to_f64(boxes.len()));
    put_vec(out, 1, b.min);
    put_vec(out, 4, b.max);
}

// Box k of what was collected, where there is room for its numbers; a refusal writes nothing.
#[tactic(auto, using(base::proofs::Cases::cases), unfolding(crate::specs::Shown::box_written, base::specs::Choose::choose))]
fn box_into(out: &mut [f64], collected: Result<BoxList, Refusal>, k: u32) -> Result<(), Refusal>
    ensures value { verdict result ≡ (held_in collected).refusal }
    ensures out_after { out.new ≡ box_written out.old (held_in collected) k }
{
    let list = collected?;
    put_nth(out, list.as_slice(), k);
    Ok(())
}

// The boxes that the move of a box through a window collects, one at a call: `mover` is the box and its delta, nine numbers, and `cap` how many it
// may collect, 0 to 512, where 0 stands for 512. It writes how many boxes there are, then box k, zeros where k is not below that, seven numbers, and
// returns 0; or it writes nothing and returns 1 to 4, 11, 5 or 6.
#[unsafe(no_mangle)]
pub extern "C" fn boltjuniper_collected(
    records: &[u32],
    shapes: &[f32],
    cells: &[u32],
    ox: i32,
    oy: i32,
    oz: i32,
    sx: u32,
    sy: u32,
    sz: u32,
    lowest: i32,
    highest: i32,
    air: u32,
    mover: &[f64],
    step: f64,
    cap: u32,
    k: u32,
    out: &mut [f64],
) -> u32
    ensures value { result ≡ (collected_at cap records.now shapes.now cells.now (window_of ox oy oz sx sy sz lowest highest air) mover.now step (length out.old)).refusal }
    ensures out_after { out.new ≡ box_written out.old (collected_at cap records.now shapes.now cells.now (window_of ox oy oz sx sy sz lowest highest air) mover.now step (length out.old)) k }
{
    let tables = Tables { records, shapes };
    let view = View {
        words: cells,
        window: window::window_of(ox, oy, oz, sx, sy, sz, lowest, highest, air),
    };
    let list = collected(cap, tables, view, mover, step, out.len());
    base::code(box_into(out, list, k))
}
