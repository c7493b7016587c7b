// The records of the classroom palette: a word of a state, and the table of all. Its boxes are in `palette_boxes`.
#![tactic(auto)]

ghost use Rattle.std.specs.Prelude.{◌≡◌, ◌<◌, ◌≤◌, length};
ghost use Rattle.base.specs.Loop.{stored};
ghost use Rattle.base.specs.Refusals.{verdict};
ghost use Rattle.palette_boxes.specs.Fill.{fill_refusal, filled};
ghost use Rattle.palette.specs.Palette.{flags, faces, record_word, palette_word, record_words, palette_records};

use base::Refusal;
use palette_boxes::{box_count, first_box_of};
use palette_states::{kind_of, post_digit};

mod links;

#[tactic(auto, using(base::proofs::Cases::cases), unfolding(crate::specs::Palette::flags, base::specs::Choose::choose))]
fn flags_of(state: u32) -> u32
    ensures { result ≡ flags state }
{
    if state == 0 { 1 } else { 3 }
}

#[tactic(auto, using(base::proofs::Cases::cases), unfolding(crate::specs::Palette::faces, base::specs::Choose::choose))]
fn faces_of(state: u32) -> u32
    ensures { result ≡ faces state }
{
    if state == 1 { 15 } else { 0 }
}

#[tactic(auto, using(base::proofs::Cases::cases), unfolding(crate::specs::Palette::record_word, base::specs::Choose::choose))]
fn record_word(state: u32, k: u32) -> u32
    requires { state < 212 }
    ensures { result ≡ record_word state k }
{
    match k {
        0 => flags_of(state),
        1 => 0x3f19_999a,
        4 => kind_of(state),
        6 => post_digit(state),
        7 => first_box_of(state),
        8 => box_count(state),
        9..19 => links::link_of(state, k - 9),
        19 => faces_of(state),
        _ => 0,
    }
}

// Word k of a state's record: 0 where there is none.
#[tactic(auto, using(base::proofs::Cases::cases), unfolding(crate::specs::Palette::palette_word, base::specs::Choose::choose))]
pub fn palette_word(state: u32, k: u32) -> u32
    ensures { result ≡ palette_word state k }
{
    if state < 212 {
        record_word(state, k)
    } else {
        0
    }
}

fn put_words(out: &mut [u32])
    requires { 4240 ≤ length out.old }
    ensures { out.new ≡ stored out.old 0 palette_records }
{
    for i in 0..4240 {
        out[i] = palette_word(i as u32 / 20, i as u32 % 20);
    }
}

/// The 4,240 words of the records. Where the buffer is too short the answer is `Room`, and nothing is written.
pub fn fill_records(out: &mut [u32]) -> Result<(), Refusal>
    ensures value { verdict result ≡ fill_refusal record_words out.old }
    ensures written { out.new ≡ filled record_words out.old palette_records }
{
    if out.len() < 4240 {
        return Err(Refusal::Room);
    }
    put_words(out);
    Ok(())
}
