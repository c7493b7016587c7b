// A scene written anew, of its contents.
#![tactic(auto)]

ghost use Rattle.std.specs.Prelude.{◌≡◌, ◌≤◌, length};
ghost use Rattle.files.specs.Files.{blocks_for};
ghost use Rattle.writer.specs.Written.{bytes_told, written_scene, scene_answer};
ghost use Rattle.files.specs.Contents.{contents_of, numbers_in, late_words, body_age, contents_behind};
ghost use Rattle.scene_held.specs.Held.{held_contents};
ghost use Rattle.scene_anew.specs.Rewritten.{rewritten, rewrite_answer};

use base::Refusal;
use files::Counts;
use scene_held::{body_age, held, numbers_in, put_all, words_in};
use tables::Tables;
use window::View;

// A scene of a file's body among these tables and cells.
fn write_among(
    file: &[u8],
    tables: Tables<'_>,
    view: View<'_>,
    out: &mut [u8],
) -> Result<usize, Refusal>
    ensures out_after { out.new ≡ written_scene out.old (contents_of tables.entry.records.now tables.entry.shapes.now view.entry.words.now view.entry.window (numbers_in file.now) (late_words file.now) (body_age file.now)) }
    ensures value { bytes_told result ≡ scene_answer (length out.old) (contents_of tables.entry.records.now tables.entry.shapes.now view.entry.words.now view.entry.window (numbers_in file.now) (late_words file.now) (body_age file.now)) }
{
    let numbers = numbers_in(file);
    let words = words_in(file);
    let age = body_age(file);
    writer::write_scene(tables, view, &numbers, &words, age, out)
}

// The same of a file with these counts, whose records stand first among the words, and its cells behind them.
fn write_held(
    file: &[u8],
    n: Counts,
    words: &[u32],
    singles: &[f32],
    out: &mut [u8],
) -> Result<usize, Refusal>
    ensures out_after { out.new ≡ written_scene out.old (held_contents file.now n words.now singles.now) }
    ensures value { bytes_told result ≡ scene_answer (length out.old) (held_contents file.now n words.now singles.now) }
{
    let a = held(n.states as u32 * 20, words.len());
    let b = held(n.boxes as u32 * 6, singles.len());
    let c = held(n.cells, words.len() - a);
    let window = files::window_in(file, n);
    let tables = Tables {
        records: &words[..a],
        shapes: &singles[..b],
    };
    let view = View {
        words: &words[a..a + c],
        window,
    };
    write_among(file, tables, view, out)
}

// The scene in a file with these counts.
fn write_in(file: &[u8], n: Counts, out: &mut [u8]) -> Result<usize, Refusal>
    ensures out_after { blocks_for n ≤ 128 → out.new ≡ written_scene out.old (contents_behind file.now n) }
    ensures value { blocks_for n ≤ 128 → bytes_told result ≡ scene_answer (length out.old) (contents_behind file.now n) }
{
    let mut words = [0u32; 15744];
    let mut singles = [0.0f32; 15744];
    put_all(&mut words, &mut singles, file, n);
    write_held(file, n, &words, &singles, out)
}

/// The scene in `file` as the writer makes it of its contents: refused by 8 where the file is no scene, and else what `write_scene` refuses or
/// writes. It answers how many bytes it wrote.
pub fn rewrite(file: &[u8], out: &mut [u8]) -> Result<usize, Refusal>
    ensures out_after { out.new ≡ rewritten out.old file.now }
    ensures value { bytes_told result ≡ rewrite_answer (length out.old) file.now }
{
    let n = files::counts_of(file)?;
    write_in(file, n, out)
}
