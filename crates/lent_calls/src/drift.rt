// Currents, in lent numbers.
ghost use Rattle.std.specs.Prelude.{◌≡◌};
ghost use Rattle.base.specs.Refusals.{verdict};
ghost use Rattle.window.specs.Views.{look_in};
ghost use Rattle.lent_calls.specs.Currents.{current_at, current_refusal, current_written};

use base::Refusal;
use boxes::{Aabb, Vec3};
use lent_numbers::put_flagged;
use tables::Tables;
use window::View;

/// The currents at an item: the cell of its feet is asked for first. A refusal writes nothing.
#[tactic(auto, using(base::proofs::Cases::cases), unfolding(crate::specs::Currents::current_at))]
pub fn current_into(
    tables: Tables<'_>,
    view: View<'_>,
    feet: Vec3,
    width: f64,
    height: f64,
    out: &mut [f64],
) -> Result<(), Refusal>
    ensures value { verdict result ≡ current_refusal (current_at (look_in view.entry) tables.entry.records.now feet width height) }
    ensures out_after { out.new ≡ current_written out.old (current_at (look_in view.entry) tables.entry.records.now feet width height) }
{
    let foot = ranges::cell_holding(feet);
    let state = flow::liquid_at(tables, view, foot)?;
    let aabb = Aabb::from_feet(feet, width, height);
    let current = currents::item_current(tables, view, aabb, foot, state)?;
    put_flagged(out, current.flow, current.water);
    Ok(())
}
