// The rules of the table check, as specs/Check.antt has them, in its order.
#![tactic(auto)]

ghost use Rattle.std.specs.Prelude.{◌≡◌, ◌<◌};
ghost use Rattle.base.specs.Refusals.{verdict};
ghost use Rattle.base.specs.Every.{every};
ghost use Rattle.floats.specs.Numbers.{is_within_limit};
ghost use Rattle.cover.specs.Cover.{box_count};
ghost use Rattle.table_check.specs.Check.{table_counts_fit, most_depth, words_fit, state_boxes_fit, all_zero, leads_on, all_lead_on, posts_stay, links_fit, faces_fit, registered_or_zero, record_fits, four, side_fits, box_fits, tables_fit, table_refusal};

use base::Refusal;
use tables::Tables;

#[tactic(auto, using(base::proofs::Cases::cases), unfolding(crate::specs::Check::table_counts_fit))]
fn counts_fit(tables: Tables<'_>) -> bool
    ensures { result ≡ table_counts_fit tables.entry.records.now tables.entry.shapes.now }
{
    let words = tables.records.len();
    let numbers = tables.shapes.len();
    words % 20 == 0
        && numbers % 6 == 0
        && 1 <= words / 20
        && words / 20 <= 4096
        && numbers / 6 <= 16384
}

#[tactic(auto, using(base::proofs::Cases::cases), unfolding(base::specs::Choose::choose))]
fn most_depth(liquid: u32) -> u32
    ensures { result ≡ most_depth liquid }
{
    if liquid == 0 { 0 } else { 15 }
}

// Words 0 to 6.
fn words_fit(tables: Tables<'_>, state: u32) -> bool
    ensures { result ≡ words_fit tables.entry.records.now state }
{
    let liquid = tables.word(state, 2);
    (tables.word(state, 0) < 4)
        & floats::is_within(tables.friction(state), 16.0)
        & (liquid <= 2)
        & (tables.word(state, 3) <= most_depth(liquid))
        & (tables.word(state, 4) <= 4)
        & (tables.word(state, 5) <= 2)
        & (tables.word(state, 6) <= 5)
}

// Words 7 and 8.
#[tactic(auto, using(base::proofs::Cases::cases), unfolding(crate::specs::Check::state_boxes_fit))]
fn part_fits(tables: Tables<'_>, state: u32) -> bool
    ensures { result ≡ state_boxes_fit tables.entry.records.now tables.entry.shapes.now state }
{
    let first = tables.word(state, 7) as usize;
    let count = tables.word(state, 8) as usize;
    count <= 16 && first + count <= tables.shapes.len() / 6
}

#[tactic(auto, using(base::proofs::Every::each), unfolding(crate::specs::Check::all_zero))]
fn all_zero(tables: Tables<'_>, state: u32, from: u8, count: u8) -> bool
    ensures { result ≡ all_zero tables.entry.records.now state from count }
{
    for i in 0..count {
        if tables.word(state, from as u32 + i as u32) != 0 {
            return false;
        }
    }
    true
}

// A transition or a post leads to a registered record that connects as the first one does.
#[tactic(auto, using(base::proofs::Cases::cases), unfolding(crate::specs::Check::leads_on))]
fn leads_on(tables: Tables<'_>, kind: u32, target: u32) -> bool
    ensures { result ≡ leads_on tables.entry.records.now kind target }
{
    tables.is_registered(target) && tables.word(target, 4) == kind
}

#[tactic(auto, using(base::proofs::Every::each), unfolding(crate::specs::Check::all_lead_on))]
fn all_lead_on(tables: Tables<'_>, state: u32, kind: u32) -> bool
    ensures { result ≡ all_lead_on tables.entry.records.now state kind }
{
    for i in 0..10 {
        if !leads_on(tables, kind, tables.word(state, 9 + i)) {
            return false;
        }
    }
    true
}

#[tactic(auto, using(base::proofs::Cases::cases), unfolding(crate::specs::Check::posts_stay))]
fn posts_stay(tables: Tables<'_>, state: u32) -> bool
    ensures { result ≡ posts_stay tables.entry.records.now state }
{
    tables.word(state, 17) == state && tables.word(state, 18) == state
}

// Words 9 to 18.
#[tactic(auto, using(base::proofs::Cases::cases), unfolding(crate::specs::Check::links_fit, base::specs::Choose::choose))]
fn links_fit(tables: Tables<'_>, state: u32) -> bool
    ensures { result ≡ links_fit tables.entry.records.now state }
{
    let kind = tables.word(state, 4);
    if kind == 0 {
        return all_zero(tables, state, 9, 10);
    }
    all_lead_on(tables, state, kind) && (kind == 4 || posts_stay(tables, state))
}

// Word 19.
#[tactic(auto, using(base::proofs::Cases::cases), unfolding(crate::specs::Check::faces_fit))]
fn faces_fit(tables: Tables<'_>, state: u32) -> bool
    ensures { result ≡ faces_fit tables.entry.records.now tables.entry.shapes.now state }
{
    tables.word(state, 19) == cover::full_faces(tables.boxes(state))
}

#[tactic(auto, using(base::proofs::Cases::cases), unfolding(crate::specs::Check::registered_or_zero))]
fn registered_or_zero(tables: Tables<'_>, state: u32) -> bool
    ensures { result ≡ registered_or_zero tables.entry.records.now state }
{
    tables.is_registered(state) || all_zero(tables, state, 0, 20)
}

#[tactic(auto, using(base::proofs::Cases::cases), unfolding(crate::specs::Check::record_fits))]
fn record_fits(tables: Tables<'_>, state: u32) -> bool
    ensures { result ≡ record_fits tables.entry.records.now tables.entry.shapes.now state }
{
    words_fit(tables, state)
        && part_fits(tables, state)
        && links_fit(tables, state)
        && faces_fit(tables, state)
        && registered_or_zero(tables, state)
}

#[tactic(auto, using(base::proofs::Every::each))]
fn records_fit(tables: Tables<'_>, states: u32) -> bool
    ensures { result ≡ every states (record_fits tables.entry.records.now tables.entry.shapes.now) }
{
    for state in 0..states {
        if !record_fits(tables, state) {
            return false;
        }
    }
    true
}

// Finite, and of size at most 4: no NaN and no infinity lies between the two.
fn within_four(x: f32) -> bool
    ensures { result ≡ is_within_limit x four }
{
    if -4.0 <= x {
        return x <= 4.0;
    }
    false
}

#[tactic(auto, using(base::proofs::Cases::cases), unfolding(crate::specs::Check::side_fits))]
fn side_fits(min: f32, max: f32) -> bool
    ensures { result ≡ side_fits min max }
{
    within_four(min) && within_four(max) && min <= max
}

#[tactic(auto, using(base::proofs::Cases::cases), unfolding(crate::specs::Check::box_fits))]
fn box_fits(shapes: &[f32], k: usize) -> bool
    requires { k < box_count shapes.now }
    ensures { result ≡ box_fits shapes.now k }
{
    let i = k * 6;
    side_fits(shapes[i], shapes[i + 3])
        && side_fits(shapes[i + 1], shapes[i + 4])
        && side_fits(shapes[i + 2], shapes[i + 5])
}

#[tactic(auto, using(base::proofs::Every::each))]
fn boxes_fit(shapes: &[f32]) -> bool
    ensures { result ≡ every (box_count shapes.now) (box_fits shapes.now) }
{
    for k in 0..shapes.len() / 6 {
        if !box_fits(shapes, k) {
            return false;
        }
    }
    true
}

#[tactic(auto, using(base::proofs::Cases::cases), unfolding(crate::specs::Check::tables_fit))]
fn tables_fit(tables: Tables<'_>) -> bool
    ensures { result ≡ tables_fit tables.entry.records.now tables.entry.shapes.now }
{
    if !counts_fit(tables) {
        return false;
    }
    let states = (tables.records.len() / 20) as u32;
    records_fit(tables, states) && boxes_fit(tables.shapes)
}

/// The table check: refused where a rule or a limit of the lent tables breaks.
#[tactic(auto, using(base::proofs::Cases::cases))]
pub fn check_tables(tables: Tables<'_>) -> Result<(), Refusal>
    ensures { verdict result ≡ table_refusal tables.entry.records.now tables.entry.shapes.now }
{
    if tables_fit(tables) {
        Ok(())
    } else {
        Err(Refusal::Tables)
    }
}
