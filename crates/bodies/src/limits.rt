// The limits on what a host hands in.
ghost use Rattle.std.specs.Prelude.{◌≡◌};
ghost use Rattle.base.specs.Refusals.{verdict};
ghost use Rattle.bodies.specs.Limits.{is_extent, is_small, measures_fit, cases_fit, rules_fit, numbers_are_fit, is_position, is_velocity, motion_fits, number_refusal};

use crate::{BodyNumbers, MotionNumbers, Rules};
use base::Refusal;
use boxes::Vec3;
use tables::Tables;

// A width or a height: over 0, at most 16.
fn is_extent(x: f64) -> bool
    ensures { result ≡ is_extent x }
{
    floats::is_within(x, 16.0) & (x > 0.0)
}

fn is_small(x: f64) -> bool
    ensures { result ≡ is_small x }
{
    floats::is_within(x, 16.0)
}

fn measures_fit(b: BodyNumbers) -> bool
    ensures { result ≡ measures_fit b }
{
    is_extent(b.width)
        & is_extent(b.height)
        & is_small(b.offset)
        & is_small(b.gravity)
        & is_small(b.vertical)
        & is_small(b.horizontal)
        & is_small(b.flap)
        & boxes::is_step(b.step)
}

// Enum numbers that are known, and flap present 0 or 1.
fn cases_fit(b: BodyNumbers) -> bool
    ensures { result ≡ cases_fit b }
{
    (b.model < 4) & (b.stage < 3) & (b.friction < 2) & (b.flaps < 2)
}

pub fn rules_fit(tables: Tables<'_>, rules: Rules) -> bool
    ensures { result ≡ rules_fit tables.entry.records.now rules }
{
    is_small(rules.friction)
        & is_small(rules.depth)
        & is_small(rules.gravity)
        & is_small(rules.water)
        & is_small(rules.lava)
        & tables.is_registered(rules.air)
        & sweeps::is_cap(rules.cap)
}

// Whether nothing is a 3.
fn numbers_fit(tables: Tables<'_>, rules: Rules, body: BodyNumbers, grounded: u32) -> bool
    ensures { result ≡ numbers_are_fit tables.entry.records.now rules body grounded }
{
    measures_fit(body) & cases_fit(body) & rules_fit(tables, rules) & (grounded < 2)
}

pub fn is_position(v: Vec3) -> bool
    ensures { result ≡ is_position v }
{
    boxes::are_within(v, 33554432.0)
}

fn is_velocity(v: Vec3) -> bool
    ensures { result ≡ is_velocity v }
{
    boxes::are_within(v, 64.0)
}

// Whether nothing is a 4.
fn motion_fits(feet: Vec3, velocity: Vec3) -> bool
    ensures { result ≡ motion_fits feet velocity }
{
    is_position(feet) & is_velocity(velocity)
}

/// Refused by 3 where a number or a case does not fit; else by 4 where the motion does not. No cell is asked for before it.
#[tactic(auto, using(base::proofs::Cases::cases), unfolding(crate::specs::Limits::number_refusal))]
pub fn check_numbers(
    tables: Tables<'_>,
    rules: Rules,
    body: BodyNumbers,
    given: MotionNumbers,
) -> Result<(), Refusal>
    ensures { verdict result ≡ number_refusal tables.entry.records.now rules body given }
{
    if !numbers_fit(tables, rules, body, given.on_ground) {
        return Err(Refusal::Number);
    }
    if motion_fits(given.feet, given.velocity) {
        Ok(())
    } else {
        Err(Refusal::Place)
    }
}
