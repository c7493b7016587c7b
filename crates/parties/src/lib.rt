// A midnight call for two parties over the same tables, which are checked once for both. Each party has its own windows, its own bodies, and its own
// half of the buffer, and is refused alone. Nothing of the one alters anything of the other's (proofs/Separation.antt).
#![tactic(auto)]

ghost use Rattle.std.specs.Prelude.{◌≡◌, false, length};
ghost use Rattle.base.specs.Refusals.{verdict};
ghost use Rattle.night_answers.specs.Answers.{lent_with};
ghost use Rattle.midnight.specs.Run.{bodies_of};
ghost use Rattle.parties.specs.Parties.{party_seen, told_seen, call_with, party_refusal, party_written, call_refusals, call_written};

use base::Refusal;
use night_rows::{Bodies, Windows};
use tables::Tables;

/// What each party is told: that it was not refused, or why it was.
#[derive(Clone, Copy)]
pub struct Told {
    pub first: Result<(), Refusal>,
    pub second: Result<(), Refusal>,
}

/// A party: windows in rows, `count` of them, over the words `cells` of all of them; and bodies in rows of 21 numbers and ten words, so many.
#[derive(Clone, Copy)]
pub struct Party<'a> {
    pub windows: Windows<'a>,
    pub numbers: &'a [f64],
    pub words: &'a [u32],
    pub bodies: u32,
}

// One party, over tables that passed their check: refused with `TooMany`, then `Room`, and then its half is as it was.
#[tactic(auto, using(base::proofs::Cases::cases), unfolding(crate::specs::Parties::party_refusal))]
fn run_party(tables: Tables<'_>, party: Party<'_>, half: &mut [f64]) -> Result<(), Refusal>
    ensures value { verdict result ≡ party_refusal party.entry.windows.count party.entry.bodies (length half.old) }
    ensures half_after { half.new ≡ party_written (lent_with tables.entry.records.now tables.entry.shapes.now party.entry.windows.rows.now party.entry.windows.count party.entry.windows.cells.now) (bodies_of false party.entry.numbers.now party.entry.words.now party.entry.bodies) half.old }
{
    if party.bodies > 2048 {
        return Err(Refusal::TooMany);
    }
    let bodies = Bodies {
        older: false,
        numbers: party.numbers,
        words: party.words,
        count: party.bodies,
    };
    midnight::run_checked(tables, party.windows, bodies, half)
}

/// For hosts. What each party lends is what `midnight::run` is lent, in the same rows; the tables are both's. The first party's answers go to the first
/// half of `out`, the second's to the second; of an odd number of places the last is kept. Each is refused with `Tables`, `TooMany` or `Room`, and then
/// its half is kept.
pub fn run(tables: Tables<'_>, one: Party<'_>, two: Party<'_>, out: &mut [f64]) -> Told
    ensures value { told_seen result ≡ call_refusals (call_with tables.entry.records.now tables.entry.shapes.now (party_seen one.entry) (party_seen two.entry) out.old) }
    ensures out_after { out.new ≡ call_written (call_with tables.entry.records.now tables.entry.shapes.now (party_seen one.entry) (party_seen two.entry) out.old) }
{
    if table_check::check_tables(tables).is_err() {
        return Told {
            first: Err(Refusal::Tables),
            second: Err(Refusal::Tables),
        };
    }
    let h = out.len() / 2;
    let first = run_party(tables, one, &mut out[..h]);
    let second = run_party(tables, two, &mut out[h..h + h]);
    Told { first, second }
}
