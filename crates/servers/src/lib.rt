// The midnight call for two parties, for a host in another language; linked beside `exports`.
#![tactic(auto)]

ghost use Rattle.std.specs.Prelude.{◌≡◌};
ghost use Rattle.parties.specs.Parties.{party_with, call_with, call_refusals, call_written};
ghost use Rattle.servers.specs.Told.{words_told};

use night_rows::Windows;
use parties::Party;
use tables::Tables;

// One tick of each body of two parties over one table, which is checked once for both. Each party has its own windows, at most 16, and bodies, at most
// 2,048, in rows as `boltjuniper_midnight_capped` takes them; a body names a window of its own party by its number there, and no other. The first party's
// answers go to the first half of `out`, the second's to the second, in rows of 13 numbers; a half is half the length, rounded down, and a last odd
// place is kept. It returns the first party's refusal in the low 32 bits and the second's in the high ones: each 0; or 1, 14 or 11, and that half is
// kept as it was.
#[unsafe(no_mangle)]
pub extern "C" fn boltjuniper_midnight_two(
    records: &[u32],
    shapes: &[f32],
    windows1: &[u32],
    count1: u32,
    cells1: &[u32],
    numbers1: &[f64],
    words1: &[u32],
    bodies1: u32,
    windows2: &[u32],
    count2: u32,
    cells2: &[u32],
    numbers2: &[f64],
    words2: &[u32],
    bodies2: u32,
    out: &mut [f64],
) -> u64
    ensures value { result ≡ words_told (call_refusals (call_with records.now shapes.now (party_with windows1.now count1 cells1.now numbers1.now words1.now bodies1) (party_with windows2.now count2 cells2.now numbers2.now words2.now bodies2) out.old)) }
    ensures out_after { out.new ≡ call_written (call_with records.now shapes.now (party_with windows1.now count1 cells1.now numbers1.now words1.now bodies1) (party_with windows2.now count2 cells2.now numbers2.now words2.now bodies2) out.old) }
{
    let tables = Tables { records, shapes };
    let one = Party {
        windows: Windows {
            rows: windows1,
            count: count1,
            cells: cells1,
        },
        numbers: numbers1,
        words: words1,
        bodies: bodies1,
    };
    let two = Party {
        windows: Windows {
            rows: windows2,
            count: count2,
            cells: cells2,
        },
        numbers: numbers2,
        words: words2,
        bodies: bodies2,
    };
    let told = parties::run(tables, one, two, out);
    lent_words::join(base::code(told.first), base::code(told.second))
}
