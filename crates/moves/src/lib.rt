// Module 6 as a host calls it: collection and the move, with all their refusals.
#![tactic(auto)]

ghost use Rattle.std.specs.Prelude.{◌≡◌};
ghost use Rattle.base.specs.Refusals.{asked, verdict};
ghost use Rattle.sweeps.specs.Entry.{move_answer};
ghost use Rattle.sweeps.specs.Lists.{held_in};
ghost use Rattle.moves.specs.Answers.{numbers_refusal, collect_entry, hit_answer, collides_entry, move_entry, move_summed};

use base::Refusal;
use boxes::Aabb;
use sweeps::{BoxList, MoveResult, Request};
use tables::Tables;
use window::View;

/// For hosts: collection, with tables, window, cap and area checked before any cell is asked for. Err(Tables), Err(Window), Err(Number) and
/// Err(Place) in order; then Err(OutsideWindow) or Err(TooManyBoxes).
#[tactic(auto, using(base::proofs::Cases::cases, base::proofs::Answers::some_number), unfolding(crate::specs::Answers::collect_entry, base::specs::Choose::choose))]
pub fn collect_block_boxes(
    tables: Tables<'_>,
    view: View<'_>,
    area: Aabb,
    cap: u32,
) -> Result<BoxList, Refusal>
    ensures { held_in result ≡ collect_entry cap tables.entry.records.now tables.entry.shapes.now view.entry.words.now view.entry.window area }
{
    lent::check_direct(tables, view)?;
    if !sweeps::is_cap(cap) {
        return Err(Refusal::Number);
    }
    if !boxes::is_box(area) {
        return Err(Refusal::Place);
    }
    collection::collect(cap, tables, view, area)
}

/// For hosts: whether a block box strictly overlaps the area. Err(Tables), Err(Window), Err(Number) for the air state, and Err(Place) in order; then
/// Err(OutsideWindow).
#[tactic(auto, using(base::proofs::Cases::cases, base::proofs::Answers::some_number), unfolding(crate::specs::Answers::collides_entry, base::specs::Choose::choose))]
pub fn collides_with_blocks(tables: Tables<'_>, view: View<'_>, area: Aabb) -> Result<bool, Refusal>
    ensures { hit_answer (asked result) ≡ collides_entry tables.entry.records.now tables.entry.shapes.now view.entry.words.now view.entry.window area }
{
    lent::check_direct(tables, view)?;
    if !boxes::is_box(area) {
        return Err(Refusal::Place);
    }
    collection::collides(tables, view, area)
}

// What a move asks for: Err(Number) for the cap and the step height, then Err(Place) for the box and the delta.
#[tactic(auto, using(base::proofs::Cases::cases), unfolding(base::specs::Choose::choose))]
fn check_numbers(cap: u32, q: Request) -> Result<(), Refusal>
    ensures { verdict result ≡ numbers_refusal cap q.aabb q.delta q.step }
{
    if !(sweeps::is_cap(cap) && boxes::is_step(q.step)) {
        return Err(Refusal::Number);
    }
    if !(boxes::is_box(q.aabb) && boxes::is_delta(q.delta)) {
        return Err(Refusal::Place);
    }
    Ok(())
}

/// For hosts: the move through a window. Err(Tables), Err(Window), Err(Number) and Err(Place) in order, before any cell is asked for; then
/// Err(OutsideWindow) or Err(TooManyBoxes).
#[tactic(auto, using(base::proofs::Cases::cases, base::proofs::Answers::some_number), unfolding(crate::specs::Answers::move_entry, base::specs::Choose::choose))]
pub fn move_aabb(
    tables: Tables<'_>,
    view: View<'_>,
    q: Request,
    cap: u32,
) -> Result<MoveResult, Refusal>
    ensures { move_answer q.aabb (asked result) ≡ move_entry cap tables.entry.records.now tables.entry.shapes.now view.entry.words.now view.entry.window q.aabb q.delta q.step q.on_ground }
{
    lent::check_direct(tables, view)?;
    check_numbers(cap, q)?;
    through::move_through(cap, tables, view, q)
}

/// For hosts: the move through a window with a summary behind its words, by which it passes over layers. As `move_aabb`, with Err(Room) and
/// Err(Summary) after Err(Place).
#[tactic(auto, using(base::proofs::Cases::cases, base::proofs::Answers::some_number), unfolding(crate::specs::Answers::move_summed, base::specs::Choose::choose))]
pub fn move_summed(
    cap: u32,
    tables: Tables<'_>,
    view: View<'_>,
    q: Request,
) -> Result<MoveResult, Refusal>
    ensures { move_answer q.aabb (asked result) ≡ move_summed cap tables.entry.records.now tables.entry.shapes.now view.entry.words.now view.entry.window q.aabb q.delta q.step q.on_ground }
{
    lent::check_direct(tables, summary::plain(view))?;
    check_numbers(cap, q)?;
    groups::check_summary(tables, view)?;
    through::move_through(cap, tables, view, q) // past the layers that the summary marks
}
