// What a host is handed for a step's sample: the case's number, and the sampled one.
ghost use Rattle.std.specs.Prelude.{◌≡◌};
ghost use Rattle.drags.specs.Cases.{reason_number, case_number, sampled_number};

use crate::{Sample, Support};

fn reason_number(s: Sample) -> u32
    ensures { result ≡ reason_number s }
{
    match s {
        Sample::Friction(_) => 1,
        Sample::Air => 2,
        Sample::Unloaded => 3,
        Sample::Unregistered => 4,
    }
}

// 0 not asked, 1 sampled, 2 air, 3 unloaded, 4 unregistered.
pub fn case_number(s: Support) -> u32
    ensures { result ≡ case_number s }
{
    match s {
        Support::Asked(sample) => reason_number(sample),
        Support::NotAsked => 0,
    }
}

// The sampled number; 0 where there is none.
#[tactic(auto, using(base::proofs::Cases::cases), unfolding(base::specs::Choose::choose))]
pub fn sampled_number(s: Support) -> f64
    ensures { result ≡ sampled_number s }
{
    match s {
        Support::Asked(sample) => crate::sample_or(0.0, sample),
        Support::NotAsked => 0.0,
    }
}
