// The states and their digits.
#![tactic(auto)]

ghost use Rattle.std.specs.Prelude.{◌≡◌, ◌≤◌, ◌<◌};
ghost use Rattle.turns.specs.Turns.{weight, digit_at};
ghost use Rattle.palette_states.specs.States.{kind, index, bit, bit_at, side_digit, post_digit, has_post};

// What a state connects as, word 4 of its record: 0 nothing, 1 fence, 2 nether brick fence, 3 thin, 4 wall.
#[tactic(auto, using(base::proofs::Cases::cases), unfolding(crate::specs::States::kind, base::specs::Choose::choose))]
pub fn kind_of(state: u32) -> u32
    ensures { result ≡ kind state }
{
    match state {
        0..2 => 0,
        2..18 => 1,
        18..34 => 2,
        34..50 => 3,
        50..212 => 4,
        _ => 0,
    }
}

// What it is above the base of its kind.
#[tactic(auto, using(base::proofs::Cases::cases), unfolding(crate::specs::States::index, base::specs::Choose::choose))]
pub fn index_of(state: u32) -> u32
    ensures { result ≡ index state }
{
    match state {
        0..2 => 0,
        2..18 => state - 2,
        18..34 => state - 18,
        34..50 => state - 34,
        _ => state - 50,
    }
}

// A fence's or pane's bit for a side.
#[tactic(auto, using(base::proofs::Cases::cases), unfolding(crate::specs::States::bit, base::specs::Choose::choose))]
pub fn bit_of(side: u32) -> u32
    ensures value { result ≡ bit side }
    ensures range { (0 < result) × (result ≤ 8) }
{
    match side {
        0 => 1,
        1 => 2,
        2 => 4,
        _ => 8,
    }
}

#[tactic(auto, unfolding(crate::specs::States::bit_at))]
pub fn bit_at(index: u32, side: u32) -> u32
    ensures { result ≡ bit_at index side }
{
    index / bit_of(side) % 2
}

// What a wall's digit for a side counts.
#[tactic(auto, using(base::proofs::Cases::cases), unfolding(turns::specs::Turns::weight, base::specs::Choose::choose))]
fn weight_of(side: u32) -> u32
    ensures value { result ≡ weight side }
    ensures some { 0 < result }
{
    match side {
        0 => 1,
        1 => 3,
        2 => 9,
        3 => 27,
        _ => 81,
    }
}

#[tactic(auto, unfolding(turns::specs::Turns::digit_at))]
fn digit_at(index: u32, side: u32) -> u32
    ensures { result ≡ digit_at index side }
{
    index / weight_of(side) % 3
}

// A state's digit on a side: 0 where it is not joined there.
#[tactic(auto, using(base::proofs::Cases::cases), unfolding(crate::specs::States::side_digit, base::specs::Choose::choose))]
pub fn side_digit(state: u32, side: u32) -> u32
    ensures { result ≡ side_digit state side }
{
    match kind_of(state) {
        0 => 0,
        4 => digit_at(index_of(state), side),
        _ => bit_at(index_of(state), side),
    }
}

// Word 6.
#[tactic(auto, using(base::proofs::Cases::cases), unfolding(crate::specs::States::post_digit, base::specs::Choose::choose))]
pub fn post_digit(state: u32) -> u32
    ensures { result ≡ post_digit state }
{
    match kind_of(state) {
        4 => digit_at(index_of(state), 4),
        _ => 0,
    }
}

#[tactic(auto, using(base::proofs::Cases::cases), unfolding(crate::specs::States::has_post, base::specs::Choose::choose))]
pub fn has_post(state: u32) -> bool
    ensures { result ≡ has_post state }
{
    match kind_of(state) {
        0 => state == 1,
        4 => digit_at(index_of(state), 4) == 1,
        _ => true,
    }
}
