// The move through a window, in lent numbers. Where lengths fit and there is room the move itself finds 1 to 4, so that nothing is looked at twice.
ghost use Rattle.std.specs.Prelude.{◌≡◌, length};
ghost use Rattle.base.specs.Refusals.{verdict};
ghost use Rattle.lent_numbers.specs.Written.{written_by};
ghost use Rattle.lent_calls.specs.Moves.{move_at, move_summed_at};

use base::Refusal;
use lent::check_direct;
use lent_numbers::move_into;
use lent_room::short_of;
use movers::{check_mover, request_of, whole_move};
use tables::Tables;
use window::View;

/// The move, with 1 and 2, and 3 for an air state that is not registered.
pub fn move_lent(
    cap: u32,
    tables: Tables<'_>,
    view: View<'_>,
    mover: &[f64],
    step: f64,
    grounded: u32,
    out: &mut [f64],
) -> Result<(), Refusal>
    ensures value { verdict result ≡ (move_at cap tables.entry.records.now tables.entry.shapes.now view.entry.words.now view.entry.window mover.now step grounded (length out.old)).refusal }
    ensures out_after { out.new ≡ written_by out.old (move_at cap tables.entry.records.now tables.entry.shapes.now view.entry.words.now view.entry.window mover.now step grounded (length out.old)) }
{
    if !whole_move(mover, grounded, out.len()) {
        return short_of(
            check_direct(tables, view),
            check_mover(cap, mover, step, grounded, true),
        );
    }
    let q = request_of(mover, step, grounded);
    move_into(out, moves::move_aabb(tables, view, q, cap))
}

/// The same over a window with a summary: 11 and 13 after 4.
pub fn move_summed_lent(
    cap: u32,
    tables: Tables<'_>,
    view: View<'_>,
    mover: &[f64],
    step: f64,
    grounded: u32,
    out: &mut [f64],
) -> Result<(), Refusal>
    ensures value { verdict result ≡ (move_summed_at cap tables.entry.records.now tables.entry.shapes.now view.entry.words.now view.entry.window mover.now step grounded (length out.old)).refusal }
    ensures out_after { out.new ≡ written_by out.old (move_summed_at cap tables.entry.records.now tables.entry.shapes.now view.entry.words.now view.entry.window mover.now step grounded (length out.old)) }
{
    if !whole_move(mover, grounded, out.len()) {
        return short_of(
            check_direct(tables, summary::plain(view)),
            check_mover(cap, mover, step, grounded, true),
        );
    }
    let q = request_of(mover, step, grounded);
    move_into(out, moves::move_summed(cap, tables, view, q))
}
