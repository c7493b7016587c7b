// Words that are lent or stand in a file: one as a signed number, two as one number, and eight as a window's numbers; and such words of these.
#![tactic(auto)]

ghost use Rattle.std.specs.Prelude.{◌≡◌};
ghost use Rattle.window.specs.Numbers.{window_of};
ghost use Rattle.lent_words.specs.Words.{signed_word, unsigned_word, wide_of, low_of, high_of, window_words};

use window::Window;

// A word as a signed number: two's complement.
fn signed_of(w: u32) -> i32
    ensures { result ≡ signed_word w }
{
    w.cast_signed()
}

// A signed number as a word.
#[tactic(auto, unfolding(crate::specs::Words::unsigned_word))]
fn unsigned_of(z: i32) -> u32
    ensures { result ≡ unsigned_word z }
{
    z.cast_unsigned()
}

// Two words as one number, the low word first.
pub fn join(low: u32, high: u32) -> u64
    ensures { result ≡ wide_of low high }
{
    low as u64 + high as u64 * 4294967296
}

// The low word of a number.
pub fn low_of(n: u64) -> u32
    ensures { result ≡ low_of n }
{
    (n % 4294967296) as u32
}

// The high word of a number.
pub fn high_of(n: u64) -> u32
    ensures { result ≡ high_of n }
{
    (n / 4294967296) as u32
}

// A window of words: origin and heights are signed.
pub fn window_from(
    ox: u32,
    oy: u32,
    oz: u32,
    sx: u32,
    sy: u32,
    sz: u32,
    lowest: u32,
    highest: u32,
    air: u32,
) -> Window
    ensures { result ≡ window_of (signed_word ox) (signed_word oy) (signed_word oz) sx sy sz (signed_word lowest) (signed_word highest) air }
{
    window::window_of(
        signed_of(ox),
        signed_of(oy),
        signed_of(oz),
        sx,
        sy,
        sz,
        signed_of(lowest),
        signed_of(highest),
        air,
    )
}

// The words of a window, but for its air state.
pub fn window_words(w: Window) -> [u32; 8]
    ensures { result ≡ window_words w }
{
    [
        unsigned_of(w.origin.x),
        unsigned_of(w.origin.y),
        unsigned_of(w.origin.z),
        w.sizes.x,
        w.sizes.y,
        w.sizes.z,
        unsigned_of(w.lowest),
        unsigned_of(w.highest),
    ]
}
