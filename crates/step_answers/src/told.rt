// What may tell of a step: what it came to; or a number that says whether it is refused, as a host has it, and beside that what is handed of it.
ghost use Rattle.std.specs.Prelude.{◌≡◌, eqb};
ghost use Rattle.base.specs.Choose.{choose};
ghost use Rattle.base.specs.Refusals.{asked};
ghost use Rattle.bodies.specs.declared.MotionNumbers.{MotionNumbers};
ghost use Rattle.fall_rule.specs.declared.Fall.{Fall};
ghost use Rattle.step_answers.specs.Records.{StepAnswer, FallingAnswer};
ghost use Rattle.step_answers.specs.Answers.{step_answer, handed_with, handed_falling, falling_answer, Made};

use crate::{FallingTick, HandedFalling, HandedStep, Tick, fall_handed, handed, made};
use base::{Refusal, Verdict};
use bodies::MotionNumbers;
use fall_rule::Fall;

/// What tells of a step.
pub trait StepTold: Copy {
    /// What is said of it.
    type Said: Verdict;

    /// The same with a fall record beside it.
    type Beside: FallingTold;

    // by what the step was given
    ghost answer: { Self → MotionNumbers → StepAnswer };

    fn said(self) -> Self::Said
        ensures { (given : MotionNumbers) → Self.Said.says result ≡ (answer self given).refusal };

    /// What is handed of a step that was made.
    fn made(self) -> Option<HandedStep>
        ensures { Made result (answer self) };

    /// The record that it found is handed back where the step is refused.
    fn beside(self, before: Fall, after: Fall) -> Self::Beside
        ensures { (given : MotionNumbers) → Self.Beside.answer result given before ≡ record { step = answer self given; fall = choose (eqb (answer self given).refusal 0) after before } };
}

/// What tells of a step with a fall record.
pub trait FallingTold: Copy {
    /// What is said of it.
    type Said: Verdict;

    // by what the step was given
    ghost answer: { Self → MotionNumbers → Fall → FallingAnswer };

    fn said(self) -> Self::Said
        ensures { (given : MotionNumbers) (fall : Fall) → Self.Said.says result ≡ (answer self given fall).step.refusal };

    /// What is handed of a step that was given this motion and this record.
    fn handed(self, given: MotionNumbers, fall: Fall) -> HandedFalling
        ensures { handed_falling result (answer self given fall).step.refusal ≡ answer self given fall };
}

impl StepTold for Result<Tick, Refusal> {
    type Said = Result<(), Refusal>;

    type Beside = Result<FallingTick, Refusal>;

    ghost answer = { λ told given. step_answer given (asked told) };

    fn said(self) -> Result<(), Refusal> {
        self.map(|_| ())
    }

    #[tactic(auto, using(base::proofs::Answers::some_number))]
    fn made(self) -> Option<HandedStep> {
        match self {
            Ok(tick) => Some(made(tick)),
            Err(_) => None,
        }
    }

    #[tactic(auto, using(base::proofs::Cases::cases, base::proofs::Answers::some_number))]
    fn beside(self, _before: Fall, after: Fall) -> Result<FallingTick, Refusal> {
        match self {
            Ok(tick) => Ok(FallingTick { tick, fall: after }),
            Err(refusal) => Err(refusal),
        }
    }
}

impl StepTold for (u32, HandedStep) {
    type Said = u32;

    type Beside = (u32, HandedFalling);

    ghost answer = { λ told given. handed_with told.1 told.0 };

    fn said(self) -> u32 {
        self.0
    }

    fn made(self) -> Option<HandedStep> {
        if self.0 == 0 { Some(self.1) } else { None }
    }

    #[tactic(auto, using(base::proofs::Cases::cases))]
    fn beside(self, before: Fall, after: Fall) -> (u32, HandedFalling) {
        let fall = if self.0 == 0 { after } else { before };
        (self.0, HandedFalling { step: self.1, fall })
    }
}

impl FallingTold for Result<FallingTick, Refusal> {
    type Said = Result<(), Refusal>;

    ghost answer = { λ told given fall. falling_answer given fall (asked told) };

    fn said(self) -> Result<(), Refusal> {
        self.map(|_| ())
    }

    fn handed(self, given: MotionNumbers, fall: Fall) -> HandedFalling {
        HandedFalling {
            step: handed(given, self.map(|made| made.tick)),
            fall: fall_handed(fall, self),
        }
    }
}

impl FallingTold for (u32, HandedFalling) {
    type Said = u32;

    ghost answer = { λ told given fall. handed_falling told.1 told.0 };

    fn said(self) -> u32 {
        self.0
    }

    fn handed(self, _given: MotionNumbers, _fall: Fall) -> HandedFalling {
        self.1
    }
}
