// What is handed back of a minute, as twelve numbers in a lent place.
ghost use Rattle.std.specs.Prelude.{◌≡◌};
ghost use Rattle.base.specs.Loop.{stored};
ghost use Rattle.minute_state.specs.Turns.{seen_by};
ghost use Rattle.minute_told.specs.Numbers.{minute_numbers, has_moved, minute_written};

use base::Verdict;
use lent_numbers::{put, put_vec};
use lent_steps::float_of;
use minute_state::Minute;

// Twelve numbers, as `minute_numbers` has them.
#[tactic(auto, unfolding(base::specs::Loop::stored))]
fn put_minute<V: Verdict>(out: &mut [f64], m: Minute<V>)
    ensures { out.new ≡ stored out.old 0 (minute_numbers (seen_by V.says m)) }
{
    put_vec(out, 0, m.motion.feet);
    put_vec(out, 3, m.motion.velocity);
    put(out, 6, float_of(m.motion.on_ground));
    put(out, 7, m.fall.sum);
    put(out, 8, m.fall.landed);
    put(out, 9, float_of(m.ticks));
    put(out, 10, float_of(lent_words::low_of(m.age)));
    put(out, 11, float_of(lent_words::high_of(m.age)));
}

#[tactic(auto, using(base::proofs::Cases::cases))]
fn has_moved<V: Verdict>(m: Minute<V>) -> bool
    ensures { result ≡ has_moved (seen_by V.says m) }
{
    m.ended.told() == 0 || 0 < m.ticks
}

/// The minute's numbers, and what ended it. A refusal before the first tick writes nothing.
#[tactic(auto, using(base::proofs::Cases::cases), unfolding(crate::specs::Numbers::minute_written, base::specs::Choose::choose))]
pub fn minute_into<V: Verdict>(out: &mut [f64], m: Minute<V>) -> V
    ensures value { V.says result ≡ V.says m.ended }
    ensures out_after { out.new ≡ minute_written out.old (seen_by V.says m) }
{
    if has_moved(m) {
        put_minute(out, m);
    }
    m.ended
}
