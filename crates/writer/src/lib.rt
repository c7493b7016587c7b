// Writes a scene into a lent buffer: the blocks of document 01, by the table of parts and the places that the reader goes by.
#![tactic(auto)]

ghost use Rattle.std.specs.Prelude.{◌≡◌, ◌*◌, ◌≤◌, length};
ghost use Rattle.base.specs.Loop.{stored};
ghost use Rattle.base.specs.Refusals.{verdict};
ghost use Rattle.files.specs.Files.{blocks_for};
ghost use Rattle.files.specs.Contents.{contents_of};
ghost use Rattle.writer.specs.Contents.{counts_by};
ghost use Rattle.writer.specs.Written.{CountedFor, bytes_told, bytes_by, contents_refusal, written_checked, checked_answer, written_scene, scene_answer};

use base::Refusal;
use files::Counts;
use tables::Tables;
use window::View;

// 1 to 4 as for a step.
#[tactic(auto, using(base::proofs::Cases::cases), unfolding(crate::specs::Written::contents_refusal, base::specs::Choose::choose))]
fn check_contents(
    tables: Tables<'_>,
    view: View<'_>,
    numbers: &[f64],
    words: &[u32],
) -> Result<(), Refusal>
    ensures { verdict result ≡ contents_refusal tables.entry.records.now tables.entry.shapes.now view.entry.words.now view.entry.window numbers.now words.now }
{
    lent::check_lent(tables, view)?;
    bodies::check_body(tables, numbers, words)
}

// These counts, which are few enough.
fn counts_of(states: usize, boxes: usize, cells: usize) -> Counts
    requires { (states ≤ 4096) × (boxes ≤ 16384) × (cells ≤ 15744) }
    ensures { result ≡ counts_by states boxes cells }
{
    Counts {
        states: states as u16,
        boxes: boxes as u16,
        cells: cells as u32,
    }
}

// How many states, boxes and words of the window there are; refused where a part alone is longer than a scene.
fn counts_for(tables: Tables<'_>, view: View<'_>) -> Result<Counts, Refusal>
    ensures { CountedFor tables.entry.records.now tables.entry.shapes.now view.entry.words.now result }
{
    let states = tables.records.len() / 20;
    let boxes = tables.shapes.len() / 6;
    let cells = view.words.len();
    if states > 4096 {
        return Err(Refusal::TooManyBlocks);
    }
    if boxes > 16384 {
        return Err(Refusal::TooManyBlocks);
    }
    if cells > 15744 {
        return Err(Refusal::TooManyBlocks);
    }
    Ok(counts_of(states, boxes, cells))
}

// The parts, one behind the other.
fn put_scene(
    tables: Tables<'_>,
    view: View<'_>,
    numbers: &[f64],
    words: &[u32],
    age: u64,
    n: Counts,
    out: &mut [u8],
)
    requires { (blocks_for n ≤ 128) × (blocks_for n * 512 ≤ length out.old) }
    ensures { out.new ≡ stored out.old 0 (bytes_by (contents_of tables.entry.records.now tables.entry.shapes.now view.entry.words.now view.entry.window numbers.now words.now age) n) }
{
    let body = body_words::body_words(numbers, words, age, n);
    let place = lent_words::window_words(view.window);
    part_writer::put_words(out, blocks::body_part(), &body);
    part_writer::put_words(out, blocks::record_part(n.states), tables.records);
    part_writer::put_singles(out, blocks::box_part(n.states, n.boxes), tables.shapes);
    part_writer::put_words(out, blocks::window_part(n.states, n.boxes), &place);
    part_writer::put_words(
        out,
        blocks::cell_part(n.states, n.boxes, n.cells),
        view.words,
    );
}

/// For recorders that looked for 1 to 4 before, once for many scenes of the same tables and window: 12, then 11. It answers how many bytes it wrote.
pub fn write_checked(
    tables: Tables<'_>,
    view: View<'_>,
    numbers: &[f64],
    words: &[u32],
    age: u64,
    out: &mut [u8],
) -> Result<usize, Refusal>
    ensures out_after { out.new ≡ written_checked out.old (contents_of tables.entry.records.now tables.entry.shapes.now view.entry.words.now view.entry.window numbers.now words.now age) }
    ensures value { bytes_told result ≡ checked_answer (length out.old) (contents_of tables.entry.records.now tables.entry.shapes.now view.entry.words.now view.entry.window numbers.now words.now age) }
{
    let n = counts_for(tables, view)?;
    let blocks = files::blocks_for(n);
    scene_room::check_room(blocks, out.len())?;
    put_scene(tables, view, numbers, words, age, n, out);
    Ok(blocks * 512)
}

/// A scene from body, tables and window: 1 to 4 as for a step, then 12 for more than 128 blocks, then 11 for a buffer too short; a refusal writes
/// nothing, and bytes past the scene keep their values. It answers how many bytes it wrote.
pub fn write_scene(
    tables: Tables<'_>,
    view: View<'_>,
    numbers: &[f64],
    words: &[u32],
    age: u64,
    out: &mut [u8],
) -> Result<usize, Refusal>
    ensures out_after { out.new ≡ written_scene out.old (contents_of tables.entry.records.now tables.entry.shapes.now view.entry.words.now view.entry.window numbers.now words.now age) }
    ensures value { bytes_told result ≡ scene_answer (length out.old) (contents_of tables.entry.records.now tables.entry.shapes.now view.entry.words.now view.entry.window numbers.now words.now age) }
{
    check_contents(tables, view, numbers, words)?;
    write_checked(tables, view, numbers, words, age, out)
}
