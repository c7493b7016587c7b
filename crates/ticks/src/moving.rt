// One tick of a body.
ghost use Rattle.std.specs.Prelude.{◌≡◌};
ghost use Rattle.base.specs.Refusals.{asked};
ghost use Rattle.window.specs.Views.{look_in};
ghost use Rattle.ticks.specs.Step.{after_move, move_on_by, item_begins, tick_begins, senses, move_past, step_body_past};

use crate::{Begun, tick_after, tick_to};
use base::Refusal;
use bodies::{Body, Motion, Rules};
use boxes::{Aabb, Vec3};
use drags::Support;
use ranges::cell_holding;
use step_answers::Tick;
use sweeps::Request;
use tables::{LiquidKind, Tables};
use window::View;

/// What follows the move; v is the velocity with its blocked axes zeroed.
#[tactic(auto, unfolding(crate::specs::Step::after_move))]
fn after_move(
    tables: Tables<'_>,
    view: View<'_>,
    rules: Rules,
    body: Body,
    liquid: LiquidKind,
    feet: Vec3,
    grounded: bool,
    v: Vec3,
) -> Result<Tick, Refusal>
    ensures { asked result ≡ after_move (look_in view.entry) tables.entry.records.now rules body liquid feet grounded v }
{
    let support = samples::support_after(tables, view, rules, body, liquid, feet, grounded)?;
    Ok(tick_after(rules, body, liquid, feet, grounded, support, v))
}

/// The step from gravity before the move on, of every model: aabb is the body's box, flotation an item's, liquid a living body's, and v the
/// velocity. It calls the core of the move: a box beyond the limits is no 4. It refuses 5 and 6 alone.
#[tactic(auto, unfolding(crate::specs::Step::move_on_by))]
fn move_on(
    tables: Tables<'_>,
    view: View<'_>,
    rules: Rules,
    body: Body,
    aabb: Aabb,
    grounded: bool,
    flotation: LiquidKind,
    liquid: LiquidKind,
    v: Vec3,
) -> Result<Tick, Refusal>
    ensures { asked result ≡ move_on_by (move_past rules.cap view.entry.words.now view.entry.window tables.entry.records.now tables.entry.shapes.now) (look_in view.entry) tables.entry.records.now rules body aabb grounded flotation liquid v }
{
    let velocity = drags::pulled(body, flotation, v);
    let q = Request {
        aabb,
        delta: velocity,
        step: body.step,
        on_ground: grounded,
    };
    let m = through::move_through(rules.cap, tables, view, q)?;
    let kept = drags::kept_after(m.moved, velocity);
    let reached = m.aabb.feet();
    after_move(
        tables,
        view,
        rules,
        body,
        liquid,
        reached,
        m.on_ground,
        kept,
    )
}

/// An item before its move: its current, then its flotation, and whether it rests. The cell of its feet is asked for once.
#[tactic(auto, unfolding(crate::specs::Step::item_begins))]
fn item_begins(
    tables: Tables<'_>,
    view: View<'_>,
    body: Body,
    aabb: Aabb,
    motion: Motion,
    age: u64,
) -> Result<Begun, Refusal>
    ensures { asked result ≡ item_begins (look_in view.entry) tables.entry.records.now body aabb motion age }
{
    let feet = motion.feet;
    let foot = cell_holding(feet);
    let state = flow::liquid_at(tables, view, foot)?;
    let current = currents::item_current(tables, view, aabb, foot, state)?;
    let flotation = liquids::item_flotation(
        tables,
        view,
        body.offset,
        body.height,
        feet,
        foot,
        state,
    )?;
    let carried = boxes::vectors::add(motion.velocity, current.flow);
    let velocity = drags::floated(flotation, carried);
    Ok(Begun {
        velocity,
        flotation,
        rests: drags::rests_now(motion.on_ground, velocity, current.water, age),
    })
}

#[tactic(auto, using(base::proofs::Cases::cases), unfolding(crate::specs::Step::tick_begins, base::specs::Choose::choose))]
fn tick_begins(
    tables: Tables<'_>,
    view: View<'_>,
    body: Body,
    aabb: Aabb,
    motion: Motion,
    age: u64,
) -> Result<Begun, Refusal>
    ensures { asked result ≡ tick_begins (look_in view.entry) tables.entry.records.now body aabb motion age }
{
    if body.model.is_item() {
        return item_begins(tables, view, body, aabb, motion, age);
    }
    Ok(Begun {
        velocity: motion.velocity,
        flotation: LiquidKind::None,
        rests: false,
    })
}

#[tactic(auto, using(base::proofs::Cases::cases), unfolding(crate::specs::Step::senses, base::specs::Choose::choose))]
fn senses(tables: Tables<'_>, view: View<'_>, body: Body, aabb: Aabb) -> Result<LiquidKind, Refusal>
    ensures { asked result ≡ senses (look_in view.entry) tables.entry.records.now body aabb }
{
    if body.model.is_living() {
        return liquids::living_liquid_in(tables, view, aabb);
    }
    Ok(LiquidKind::None)
}

/// The step, for any numbers: it refuses 5, 6 and 7 alone, at the first such event.
#[tactic(auto, using(base::proofs::Cases::cases), unfolding(crate::specs::Step::step_body_by, base::specs::Choose::choose))]
pub fn step_through(
    tables: Tables<'_>,
    view: View<'_>,
    rules: Rules,
    body: Body,
    motion: Motion,
    age: u64,
) -> Result<Tick, Refusal>
    ensures { asked result ≡ step_body_past view.entry.words.now view.entry.window tables.entry.records.now tables.entry.shapes.now rules body motion age }
{
    let feet = motion.feet;
    let aabb = Aabb::from_feet(feet, body.width, body.height);
    let begun = tick_begins(tables, view, body, aabb, motion, age)?;
    if begun.rests {
        let kept = begun.velocity;
        let support = Support::NotAsked;
        return Ok(tick_to(feet, kept, motion.on_ground, LiquidKind::None, support));
    }
    let liquid = senses(tables, view, body, aabb)?;
    move_on(
        tables,
        view,
        rules,
        body,
        aabb,
        motion.on_ground,
        begun.flotation,
        liquid,
        begun.velocity,
    )
}
