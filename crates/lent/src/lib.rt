// The check of lent tables and of a lent window, which every entry makes before any other.
#![tactic(auto)]

ghost use Rattle.std.specs.Prelude.{◌≡◌};
ghost use Rattle.base.specs.Refusals.{verdict};
ghost use Rattle.lent.specs.Lent.{lent_refusal, direct_refusal};

use base::Refusal;
use tables::Tables;
use window::View;

/// Refused by 1 where the tables break a rule; else by 2 where the window does.
#[tactic(auto, using(base::proofs::Cases::cases), unfolding(crate::specs::Lent::lent_refusal))]
pub fn check_lent(tables: Tables<'_>, view: View<'_>) -> Result<(), Refusal>
    ensures { verdict result ≡ lent_refusal tables.entry.records.now tables.entry.shapes.now view.entry.words.now view.entry.window }
{
    table_check::check_tables(tables)?;
    window_check::check_window(view)
}

/// The same where the window's air state is handed in beside no rules: 3 where it has no registered record.
#[tactic(auto, using(base::proofs::Cases::cases), unfolding(crate::specs::Lent::direct_refusal))]
pub fn check_direct(tables: Tables<'_>, view: View<'_>) -> Result<(), Refusal>
    ensures { verdict result ≡ direct_refusal tables.entry.records.now tables.entry.shapes.now view.entry.words.now view.entry.window }
{
    check_lent(tables, view)?;
    if tables.is_registered(view.window.air) {
        Ok(())
    } else {
        Err(Refusal::Number)
    }
}
