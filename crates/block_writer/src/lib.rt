// Writes a block of a scene, byte for byte what `block_bytes` has.
#![tactic(auto)]

ghost use Rattle.std.specs.Prelude.{◌≡◌, ◌+◌, ◌*◌, ◌≤◌, length};
ghost use Rattle.base.specs.Loop.{stored};
ghost use Rattle.block_writer.specs.Bytes.{word_bytes, bytes_of, head_bytes, payload_word, word_in, filled_block};

// Word k of a block, its lowest byte first.
fn put_word(block: &mut [u8], k: u32, w: u32)
    requires { k * 4 + 4 ≤ length block.old }
    ensures { block.new ≡ stored block.old (k * 4) (word_bytes w) }
{
    let i = k as usize * 4;
    block[i..i + 4].copy_from_slice(&w.to_le_bytes());
}

// A word that is not there is 0.
pub fn word_in(words: &[u32], i: usize) -> u32
    ensures { result ≡ word_in words.now i }
{
    words.get(i).copied().unwrap_or(0)
}

// Word 3 + i of a block: the payload from word `from` of the part on, and zeros.
#[tactic(auto, using(base::proofs::Cases::cases), unfolding(crate::specs::Bytes::payload_word, base::specs::Choose::choose))]
fn payload_word(words: &[u32], from: u32, used: u32, i: u32) -> u32
    ensures { result ≡ payload_word (λ k. word_in words.now (from + k)) used i }
{
    if i < used {
        word_in(words, from as usize + i as usize)
    } else {
        0
    }
}

// Words 0 to 2: the mark, the kind and the number.
fn put_head(block: &mut [u8], number: u32, kind: u32)
    requires { 12 ≤ length block.old }
    ensures { block.new ≡ stored block.old 0 (head_bytes number kind) }
{
    put_word(block, 0, block_checks::mark_word());
    put_word(block, 1, kind);
    put_word(block, 2, number);
}

// Words 3 to 125.
fn put_payload(block: &mut [u8], words: &[u32], from: u32, used: u32)
    requires { 504 ≤ length block.old }
    ensures { block.new ≡ stored block.old 12 (bytes_of (payload_word (λ k. word_in words.now (from + k)) used) 123) }
{
    for i in 0..123 {
        put_word(block, 3 + i, payload_word(words, from, used, i));
    }
}

// A block of the new mark: its words, and behind them the two checks of what was written. A buffer of another length than a block's keeps its bytes.
pub fn fill_block(block: &mut [u8], number: u32, kind: u32, words: &[u32], from: u32, used: u32)
    ensures { block.new ≡ filled_block block.old number kind (λ k. word_in words.now (from + k)) used }
{
    if block.len() == 512 {
        put_head(block, number, kind);
        put_payload(block, words, from, used);
        let second = block_checks::second_of(block);
        put_word(block, 126, second);
        let check = block_checks::check_of(block);
        put_word(block, 127, check);
    }
}
