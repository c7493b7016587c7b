// What a step does to a body's velocity, from the friction sampled under it on; no cell is asked for here. cases.rt has what a host is handed
// for a sample.
#![tactic(auto)]

ghost use Rattle.std.specs.Prelude.{◌≡◌};
ghost use Rattle.drags.specs.Cases.{sample_or};
ghost use Rattle.drags.specs.Drags.{grip, sunk, flapped, fallen, damped, living_velocity, living_in_liquid, living_in_air, apply_living_drag, afloat, floated, rests_now, is_before_move, is_dry, pulled, unless_stopped, kept_after, vertical_after, dragged};

use bodies::{Body, Rules, Stage};
use boxes::Vec3;
use tables::LiquidKind;

mod cases;

pub use cases::{case_number, sampled_number};

// What a sample of the block under a body tells: its friction, or why there is none.
#[derive(Clone, Copy, Debug, PartialEq)]
pub enum Sample {
    Friction(f64),
    Air,
    Unloaded,
    Unregistered,
}

// What a step tells of the block under a body: the sample that it took, or that none was asked for.
#[derive(Clone, Copy, Debug, PartialEq)]
pub enum Support {
    Asked(Sample),
    NotAsked,
}

// The sampled number, or the default where there is none, whatever the reason.
pub fn sample_or(default: f64, s: Sample) -> f64
    ensures { result ≡ sample_or default s }
{
    match s {
        Sample::Friction(f) => f,
        Sample::Air | Sample::Unloaded | Sample::Unregistered => default,
    }
}

// What a horizontal velocity is multiplied by.
#[tactic(auto, using(base::proofs::Cases::cases), unfolding(base::specs::Choose::choose))]
fn grip(horizontal: f64, default: f64, s: Support) -> f64
    ensures { result ≡ grip horizontal default s }
{
    match s {
        Support::Asked(sample) => horizontal * sample_or(default, sample),
        Support::NotAsked => horizontal,
    }
}

// The vertical velocity of a living body in a liquid of this drag.
#[tactic(auto, using(base::proofs::Cases::cases), unfolding(crate::specs::Drags::sunk, base::specs::Choose::choose))]
fn sunk(rules: Rules, body: Body, drag: f64, y: f64) -> f64
    ensures { result ≡ sunk rules body drag y }
{
    if body.gravity > 0.0 {
        return (y - rules.gravity) * drag;
    }
    (y - 0.0) * drag
}

#[tactic(auto, using(base::proofs::Cases::cases), unfolding(crate::specs::Drags::flapped, base::specs::Choose::choose))]
fn flapped(flap: Option<f64>, y: f64) -> f64
    ensures { result ≡ flapped flap y }
{
    match flap {
        Some(drag) if y < 0.0 => y * (1.0 - drag),
        _ => y,
    }
}

fn fallen(body: Body, y: f64) -> f64
    ensures { result ≡ fallen body y }
{
    (y - body.gravity) * body.vertical
}

// A horizontal component under its drag; one of size 1e-7 or less becomes +0.
#[tactic(auto, using(base::proofs::Cases::cases), unfolding(crate::specs::Drags::damped, base::specs::Choose::choose))]
fn damped(horizontal: f64, axis: f64) -> f64
    ensures { result ≡ damped horizontal axis }
{
    let v = axis * horizontal;
    if floats::magnitude(v) <= 1.0e-7 {
        0.0
    } else {
        v
    }
}

fn living_velocity(horizontal: f64, y: f64, v: Vec3) -> Vec3
    ensures { result ≡ living_velocity horizontal y v }
{
    Vec3 {
        x: damped(horizontal, v.x),
        y,
        z: damped(horizontal, v.z),
    }
}

fn living_in_liquid(rules: Rules, body: Body, drag: f64, v: Vec3) -> Vec3
    ensures { result ≡ living_in_liquid rules body drag v }
{
    let y = sunk(rules, body, drag, v.y);
    living_velocity(drag, y, v)
}

fn living_in_air(rules: Rules, body: Body, support: Support, v: Vec3) -> Vec3
    ensures { result ≡ living_in_air rules body support v }
{
    let horizontal = grip(body.horizontal, rules.friction, support);
    let flap = body.flap;
    let y = flapped(flap, fallen(body, v.y));
    living_velocity(horizontal, y, v)
}

// Gravity, drag and friction of a living body after its move.
#[tactic(auto, using(base::proofs::Cases::cases), unfolding(base::specs::Choose::choose))]
pub fn apply_living_drag(
    rules: Rules,
    body: Body,
    liquid: LiquidKind,
    support: Support,
    v: Vec3,
) -> Vec3
    ensures { result ≡ apply_living_drag rules body liquid support v }
{
    match liquid {
        LiquidKind::Water => living_in_liquid(rules, body, rules.water, v),
        LiquidKind::Lava => living_in_liquid(rules, body, rules.lava, v),
        LiquidKind::None => living_in_air(rules, body, support, v),
    }
}

fn afloat(viscosity: f64, v: Vec3) -> Vec3
    ensures { result ≡ afloat viscosity v }
{
    Vec3 {
        x: v.x * viscosity,
        y: (v.y + 0.0005) * 0.99 + 0.0006,
        z: v.z * viscosity,
    }
}

// What flotation does to an item's velocity.
#[tactic(auto, using(base::proofs::Cases::cases), unfolding(crate::specs::Drags::floated, base::specs::Choose::choose))]
pub fn floated(flotation: LiquidKind, v: Vec3) -> Vec3
    ensures { result ≡ floated flotation v }
{
    match flotation {
        LiquidKind::None => v,
        LiquidKind::Water => afloat(0.99, v),
        LiquidKind::Lava => afloat(0.95, v),
    }
}

// Whether an item rests: on the ground, slow, not in water, and not in every fourth tick.
#[tactic(auto, unfolding(crate::specs::Drags::rests_now))]
pub fn rests_now(grounded: bool, v: Vec3, water: bool, age: u64) -> bool
    ensures { result ≡ rests_now grounded v water age }
{
    grounded & (boxes::vectors::squares(v) <= 0.0001) & !water & (age % 4 != 0)
}

fn is_before_move(stage: Stage) -> bool
    ensures { result ≡ is_before_move stage }
{
    matches!(stage, Stage::BeforeMove)
}

fn is_dry(kind: LiquidKind) -> bool
    ensures { result ≡ is_dry kind }
{
    matches!(kind, LiquidKind::None)
}

// Gravity before the move.
#[tactic(auto, using(base::proofs::Cases::cases), unfolding(crate::specs::Drags::pulled, base::specs::Choose::choose))]
pub fn pulled(body: Body, flotation: LiquidKind, v: Vec3) -> Vec3
    ensures { result ≡ pulled body flotation v }
{
    let stage = body.stage;
    if is_before_move(stage) & is_dry(flotation) {
        return Vec3 {
            x: v.x,
            y: v.y - body.gravity,
            z: v.z,
        };
    }
    v
}

// The velocity of an axis after its way: +0 where it was blocked.
#[tactic(auto, using(base::proofs::Cases::cases), unfolding(crate::specs::Drags::unless_stopped, base::specs::Choose::choose))]
fn unless_stopped(moved: f64, v: f64) -> f64
    ensures { result ≡ unless_stopped moved v }
{
    if moved != v { 0.0 } else { v }
}

pub fn kept_after(moved: Vec3, v: Vec3) -> Vec3
    ensures { result ≡ kept_after moved v }
{
    Vec3 {
        x: unless_stopped(moved.x, v.x),
        y: unless_stopped(moved.y, v.y),
        z: unless_stopped(moved.z, v.z),
    }
}

#[tactic(auto, using(base::proofs::Cases::cases), unfolding(base::specs::Choose::choose))]
fn vertical_after(stage: Stage, body: Body, y: f64) -> f64
    ensures { result ≡ vertical_after stage body y }
{
    let gravity = body.gravity;
    let drag = body.vertical;
    match stage {
        Stage::BeforeMove => y * drag,
        Stage::AfterMove => (y - gravity) * drag,
        Stage::AfterDrag => y * drag - gravity,
    }
}

// A body after its move, unless it is a living one or a falling block that landed. A sample without a number is 0.6.
pub fn dragged(body: Body, support: Support, v: Vec3) -> Vec3
    ensures { result ≡ dragged body support v }
{
    let horizontal = grip(body.horizontal, 0.6, support);
    let stage = body.stage;
    let y = vertical_after(stage, body, v.y);
    Vec3 {
        x: v.x * horizontal,
        y,
        z: v.z * horizontal,
    }
}
