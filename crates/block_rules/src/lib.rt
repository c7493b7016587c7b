// What binds in every block of a scene file: mark, kind, number, unused words and checks. A look-up past the end of a file answers nothing.
#![tactic(auto)]

ghost use Rattle.std.specs.Prelude.{◌≡◌, true};
ghost use Rattle.block_checks.specs.Checks.{marked};
ghost use Rattle.block_rules.specs.Rules.{block_of, rest_zero, block_fits};

use block_checks::{check_of, file_word, is_marked, word_126};

// Block b of a file; nothing where it is not there whole.
#[tactic(auto, using(base::proofs::Cases::cases), unfolding(crate::specs::Rules::block_of, base::specs::Choose::choose))]
pub fn block_of(file: &[u8], b: usize) -> &[u8]
    ensures { result.now ≡ block_of file.now b }
{
    if b < file.len() / 512 {
        &file[b * 512..b * 512 + 512]
    } else {
        &[]
    }
}

// Each word from 3 to 125 is one of those in use, or zero.
fn rest_zero(block: &[u8], used: u32) -> bool
    ensures { result ≡ rest_zero block.now used }
{
    (0..123).all(|i| i < used || file_word(block, 3 + i) == 0)
}

#[tactic(auto, using(base::proofs::Cases::cases), unfolding(crate::specs::Rules::block_fits))]
pub fn block_fits(second: bool, block: &[u8], number: usize, kind: u32, used: u32) -> bool
    ensures { result ≡ block_fits second block.now number kind used }
{
    is_marked(second, block)
        && file_word(block, 1) == kind
        && file_word(block, 2) as usize == number
        && rest_zero(block, used)
        && file_word(block, 126) == word_126(second, block)
        && file_word(block, 127) == check_of(block)
}

// Block b of a file has the new mark.
pub fn has_new_mark(file: &[u8], b: usize) -> bool
    ensures { result ≡ marked true (block_of file.now b) }
{
    is_marked(true, block_of(file, b))
}
