// What may tell of a move: what it came to; or a number that says whether it is refused, as a host has it, and beside that what it came to.
ghost use Rattle.std.specs.Prelude.{◌≡◌, ℕ, eqb, MatchOption};
ghost use Rattle.base.specs.Ask.{Ask, refused, found};
ghost use Rattle.base.specs.Choose.{choose};
ghost use Rattle.base.specs.Refusals.{asked, verdict};
ghost use Rattle.sweeps.specs.declared.MoveResult.{MoveResult};

use base::{Refusal, Verdict};
use sweeps::MoveResult;

/// What tells of a move.
pub trait MoveTold: Copy {
    /// What is said of it.
    type Said: Verdict;

    ghost says: { Self → ℕ };

    ghost answer: { Self → Ask MoveResult };

    fn said(self) -> Self::Said
        ensures { Self.Said.says result ≡ says self };

    /// What a move that was made came to.
    fn made(self) -> Option<MoveResult>
        ensures { MatchOption result (answer self ≡ refused (says self)) (λ m. answer self ≡ found m) };
}

impl MoveTold for Result<MoveResult, Refusal> {
    type Said = Result<(), Refusal>;

    ghost says = { λ told. verdict told };

    ghost answer = { λ told. asked told };

    fn said(self) -> Result<(), Refusal> {
        self.map(|_| ())
    }

    fn made(self) -> Option<MoveResult> {
        match self {
            Ok(m) => Some(m),
            Err(_) => None,
        }
    }
}

impl MoveTold for (u32, MoveResult) {
    type Said = u32;

    ghost says = { λ told. told.0 };

    ghost answer = { λ told. choose (eqb told.0 0) (found told.1) (refused told.0) };

    fn said(self) -> u32 {
        self.0
    }

    #[tactic(auto, using(base::proofs::Cases::cases))]
    fn made(self) -> Option<MoveResult> {
        if self.0 == 0 { Some(self.1) } else { None }
    }
}
