// What a minute keeps from event to event, and what a tick's step makes of it. The feet after each tick are written into lent numbers, three for each.
#![tactic(auto)]

ghost use Rattle.std.specs.Prelude.{◌≡◌, ◌*◌, []};
ghost use Rattle.base.specs.Loop.{stored};
ghost use Rattle.minute_state.specs.Minute.{start};
ghost use Rattle.minute_state.specs.Turns.{minute_of, seen_by, ended_with, ticked_by, feet_numbers, feet_by};

use base::{Refusal, Verdict};
use bodies::{BodyNumbers, MotionNumbers, Rules};
use boxes::Vec3;
use fall_rule::Fall;
use step_answers::FallingTold;
use tables::Tables;
use window::Window;

/// What a minute keeps as it is.
#[derive(Clone, Copy)]
pub struct Lent<'a> {
    pub tables: Tables<'a>,
    pub window: Window,
    pub rules: Rules,
    pub body: BodyNumbers,
}

/// What a host is handed of the state after a log: how many ticks were done, and whether a refusal ended it. Its cells and its summary stand in the lent
/// words.
#[derive(Clone, Copy)]
pub struct Minute<V = Result<(), Refusal>> {
    pub motion: MotionNumbers,
    pub age: u64,
    pub fall: Fall,
    pub ticks: u32,
    pub ended: V,
}

/// The same, ended by a refusal, or going on.
pub fn ended_with<V: Verdict>(m: Minute<V>, ended: V) -> Minute<V>
    ensures { seen_by V.says result ≡ ended_with (seen_by V.says m) (V.says ended) }
{
    Minute { ended, ..m }
}

// The feet of tick number n.
#[tactic(auto, unfolding(base::specs::Loop::stored))]
fn put_feet(feet: &mut [f64], n: u32, v: Vec3)
    ensures { feet.new ≡ stored feet.old (n * 3) (feet_numbers v) }
{
    let at = n as usize * 3;
    lent_numbers::put(feet, at, v.x);
    lent_numbers::put(feet, at + 1, v.y);
    lent_numbers::put(feet, at + 1 + 1, v.z);
}

/// What one tick's step leaves: a refusal ends the minute, and else the feet are written and the age rises.
#[tactic(auto, using(base::proofs::Cases::cases), unfolding(crate::specs::Turns::ticked_by, crate::specs::Turns::feet_by, base::specs::Choose::choose))]
pub fn ticked<A: FallingTold>(m: Minute<A::Said>, answer: A, feet: &mut [f64]) -> Minute<A::Said>
    ensures value { seen_by A.Said.says result ≡ ticked_by (seen_by A.Said.says m) (A.answer answer m.motion m.fall) }
    ensures feet_after { feet.new ≡ feet_by feet.old (seen_by A.Said.says m) (A.answer answer m.motion m.fall) }
{
    let said = answer.said();
    if said.told() != 0 {
        return ended_with(m, said);
    }
    let made = answer.handed(m.motion, m.fall);
    let motion = made.step.motion;
    put_feet(feet, m.ticks, motion.feet);
    Minute {
        motion,
        age: m.age.wrapping_add(1),
        fall: made.fall,
        ticks: m.ticks.wrapping_add(1),
        ended: said,
    }
}

/// Before the first event, with a fresh fall record; or refused before it.
pub fn begin<V: Verdict>(given: MotionNumbers, age: u64, ended: V) -> Minute<V>
    ensures { seen_by V.says result ≡ minute_of (start given age [] (V.says ended)) }
{
    Minute {
        motion: given,
        age,
        fall: Fall {
            sum: 0.0,
            landed: 0.0,
        },
        ticks: 0,
        ended,
    }
}
