// A block of a scene file: its words, its mark and its two checks. A byte that is not there is 0.
#![tactic(auto)]

ghost use Rattle.std.specs.Prelude.{◌≡◌, ◌+◌, ◌*◌, ◌%◌, slice_index};
ghost use Rattle.block_checks.specs.Checks.{file_word, new_mark, marked, check_of, second_of, word126};

fn byte(block: &[u8], i: usize) -> u8
    ensures { result ≡ slice_index block.now i }
{
    block.get(i).copied().unwrap_or(0)
}

// Word k of a block. Where all of its bytes are there one test is made, and not four.
#[tactic(auto, unfolding(crate::specs::Checks::file_word))]
pub fn file_word(block: &[u8], k: u32) -> u32
    ensures { result ≡ file_word block.now k }
{
    let i = k as usize * 4;
    if i + 3 < block.len() {
        return u32::from_le_bytes([block[i], block[i + 1], block[i + 2], block[i + 3]]);
    }
    u32::from_le_bytes([
        byte(block, i),
        byte(block, i + 1),
        byte(block, i + 2),
        byte(block, i + 3),
    ])
}

// A block has the mark of a rule: the second, or the first.
pub fn is_marked(second: bool, block: &[u8]) -> bool
    ensures { result ≡ marked second block.now }
{
    if second {
        block.starts_with(b"SCN2")
    } else {
        block.starts_with(b"SCN1")
    }
}

// The new mark's four bytes as a word.
pub fn mark_word() -> u32
    ensures { result ≡ file_word new_mark 0 }
{
    file_word(b"SCN2", 0)
}

// The sum of words 0 to 126, wrapping at 2^32.
pub fn check_of(block: &[u8]) -> u32
    ensures { result ≡ check_of block.now }
{
    (0..127).fold(0u32, |sum, k| sum.wrapping_add(file_word(block, k)))
}

// (k + 1) times a word, wrapping at 2^32.
fn weighted(k: u32, w: u32) -> u32
    ensures { result ≡ (k + 1) * w % 4294967296 }
{
    k.wrapping_add(1).wrapping_mul(w)
}

// The sum over words 0 to 125 of (index + 1) times the word, wrapping at 2^32.
pub fn second_of(block: &[u8]) -> u32
    ensures { result ≡ second_of block.now }
{
    (0..126).fold(
        0u32,
        |sum, k| sum.wrapping_add(weighted(k, file_word(block, k))),
    )
}

// What word 126 is to be: the second check, or by the first rule zero.
#[tactic(auto, using(base::proofs::Cases::cases), unfolding(crate::specs::Checks::word126, base::specs::Choose::choose))]
pub fn word_126(second: bool, block: &[u8]) -> u32
    ensures { result ≡ word126 second block.now }
{
    if second { second_of(block) } else { 0 }
}
