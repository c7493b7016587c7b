// The liquid that a living body is in.
ghost use Rattle.std.specs.Prelude.{◌≡◌};
ghost use Rattle.base.specs.Refusals.{asked, asked_as};
ghost use Rattle.window.specs.Views.{look_in};
ghost use Rattle.liquids.specs.Living.{shrunk, cells_of, surface_of, wet_in, living_turn, living_liquid};
ghost use Rattle.liquids.specs.Answers.{search_of, liquid_answer, living_entry};

use crate::flotation::surface_at;
use base::Refusal;
use boxes::{Aabb, Vec3};
use flow::{is_liquid, liquid_at};
use ranges::Range;
use std::ops::ControlFlow;
use tables::{LiquidKind, LiquidState, Tables};
use window::{Pos, View};

#[tactic(auto, unfolding(crate::specs::Living::shrunk))]
fn shrink(aabb: Aabb) -> Aabb
    ensures { result ≡ shrunk aabb }
{
    Aabb {
        min: Vec3 {
            x: aabb.min.x + 0.001,
            y: aabb.min.y + 0.001,
            z: aabb.min.z + 0.001,
        },
        max: Vec3 {
            x: aabb.max.x - 0.001,
            y: aabb.max.y - 0.001,
            z: aabb.max.z - 0.001,
        },
    }
}

#[tactic(auto, unfolding(crate::specs::Living::cells_of))]
fn cells_of(b: Aabb) -> Range
    ensures { result ≡ cells_of b }
{
    Range {
        x: ranges::cells_between(b.min.x, b.max.x),
        y: ranges::cells_between(b.min.y, b.max.y),
        z: ranges::cells_between(b.min.z, b.max.z),
    }
}

/// A liquid that falls fills its block.
#[tactic(auto, using(base::proofs::Cases::cases, currents::proofs::Cells::read), unfolding(crate::specs::Living::surface_of, base::specs::Choose::choose))]
fn surface_of(p: Pos, depth: u32) -> f64
    ensures { result ≡ surface_of p depth }
{
    if depth >= 8 {
        return f64::from(p.y) + 1.0;
    }
    surface_at(p, depth)
}

/// What a cell's liquid does to the search: water ends it, lava is remembered.
#[tactic(auto, using(base::proofs::Cases::cases), unfolding(crate::specs::Living::wet_in, base::specs::Choose::choose))]
fn wet_in(feet: f64, p: Pos, state: LiquidState, lava: bool) -> ControlFlow<LiquidKind, bool>
    ensures { search_of result ≡ wet_in feet p state lava }
{
    if !is_liquid(state.kind) || feet >= surface_of(p, state.depth) {
        return ControlFlow::Continue(lava);
    }
    match state.kind {
        LiquidKind::None => ControlFlow::Continue(lava),
        LiquidKind::Water => ControlFlow::Break(LiquidKind::Water),
        LiquidKind::Lava => ControlFlow::Continue(true),
    }
}

/// One cell.
#[tactic(auto, unfolding(crate::specs::Living::living_turn))]
fn living_turn(
    tables: Tables<'_>,
    view: View<'_>,
    feet: f64,
    p: Pos,
    lava: bool,
) -> Result<ControlFlow<LiquidKind, bool>, Refusal>
    ensures { asked_as search_of result ≡ living_turn (look_in view.entry) tables.entry.records.now feet p lava }
{
    let state = liquid_at(tables, view, p)?;
    Ok(wet_in(feet, p, state, lava))
}

/// The liquid that a living body is in, for any box: it stops at the first water. It refuses 5 alone.
pub fn living_liquid_in(
    tables: Tables<'_>,
    view: View<'_>,
    aabb: Aabb,
) -> Result<LiquidKind, Refusal>
    ensures { asked result ≡ living_liquid (look_in view.entry) tables.entry.records.now aabb }
{
    let b = shrink(aabb);
    let feet = b.min.y;
    let r = cells_of(b);
    let mut lava = false;
    let mut t = ranges::start(r);
    // One loop over the cells of three axes: three loops, one in the other, are no plainer, and take three invariants.
    while t.y < r.y.count {
        match living_turn(tables, view, feet, ranges::place(r, t), lava)? {
            ControlFlow::Break(kind) => return Ok(kind),
            ControlFlow::Continue(met) => lava = met,
        }
        t = ranges::next(r, t);
    }
    Ok(if lava {
        LiquidKind::Lava
    } else {
        LiquidKind::None
    })
}

/// For hosts: tables, window and box are checked before any cell is asked for.
#[tactic(auto, using(base::proofs::Cases::cases), unfolding(crate::specs::Answers::living_entry, base::specs::Choose::choose))]
pub fn living_liquid(tables: Tables<'_>, view: View<'_>, aabb: Aabb) -> Result<LiquidKind, Refusal>
    ensures { liquid_answer (asked result) ≡ living_entry tables.entry.records.now tables.entry.shapes.now view.entry.words.now view.entry.window aabb }
{
    lent::check_direct(tables, view)?;
    if !boxes::is_box(aabb) {
        return Err(Refusal::Place);
    }
    living_liquid_in(tables, view, aabb)
}
