// The tick of a scene, and its answer as bytes.
ghost use Rattle.std.specs.Prelude.{◌≡◌, ◌≤◌};
ghost use Rattle.base.specs.Refusals.{asked};
ghost use Rattle.bodies.specs.Lent.{motion_at, body_at, rules_at};
ghost use Rattle.bodies.specs.declared.MotionNumbers.{MotionNumbers};
ghost use Rattle.step_answers.specs.Answers.{step_answer};
ghost use Rattle.step.specs.Answers.{step_entry};
ghost use Rattle.text.specs.Text.{written, written_count};
ghost use Rattle.text.specs.Told.{told_text};
ghost use Rattle.files.specs.Files.{blocks_for};
ghost use Rattle.files.specs.Contents.{numbers_in, late_words, body_age};
ghost use Rattle.scene_held.specs.Held.{held_contents};
ghost use Rattle.scene.specs.Scene.{step_of_contents, step_in, tick_of, answer_text};
ghost use Rattle.scene.specs.Given.{given_of, scene_given};

use base::Refusal;
use bodies::{MotionNumbers, yes_number};
use files::Counts;
use scene_held::{body_age, held, numbers_in, put_all, words_in};
use step_answers::Tick;
use tables::Tables;
use text::Lines;
use window::View;

// The step of a scene's body among these tables and cells.
fn step_among(file: &[u8], tables: Tables<'_>, view: View<'_>) -> Result<Tick, Refusal>
    ensures { step_answer (given_of file.now) (asked result) ≡ step_entry tables.entry.records.now tables.entry.shapes.now view.entry.words.now view.entry.window (rules_at (numbers_in file.now) (late_words file.now)) (body_at (numbers_in file.now) (late_words file.now)) (motion_at (numbers_in file.now) (late_words file.now)) (body_age file.now) }
{
    let numbers = numbers_in(file);
    let words = words_in(file);
    let rules = bodies::rules_from(&numbers, &words);
    let body = bodies::body_from(&numbers, &words);
    let given = bodies::motion_from(&numbers, &words);
    let age = body_age(file);
    step::step_body_sensed(tables, view, rules, body, given, age)
}

// The same for a scene with these counts, whose records stand first among the words, and its cells behind them.
fn step_held(file: &[u8], n: Counts, words: &[u32], singles: &[f32]) -> Result<Tick, Refusal>
    ensures { step_answer (given_of file.now) (asked result) ≡ step_of_contents (held_contents file.now n words.now singles.now) }
{
    let a = held(n.states as u32 * 20, words.len());
    let b = held(n.boxes as u32 * 6, singles.len());
    let c = held(n.cells, words.len() - a);
    let window = files::window_in(file, n);
    let tables = Tables {
        records: &words[..a],
        shapes: &singles[..b],
    };
    let view = View {
        words: &words[a..a + c],
        window,
    };
    step_among(file, tables, view)
}

// The step of a scene with these counts. 128 blocks have no more than 15,744 words of records and cells together, so that one array holds both.
fn step_in(file: &[u8], n: Counts) -> Result<Tick, Refusal>
    ensures { blocks_for n ≤ 128 → step_answer (given_of file.now) (asked result) ≡ step_in file.now n }
{
    let mut words = [0u32; 15744];
    let mut singles = [0.0f32; 15744];
    put_all(&mut words, &mut singles, file, n);
    step_held(file, n, &words, &singles)
}

/// One tick of a scene's body: refused by 8 where the file is no scene, and else what the step answers.
pub fn tick_of(file: &[u8]) -> Result<Tick, Refusal>
    ensures { step_answer (scene_given file.now) (asked result) ≡ tick_of file.now }
{
    let n = files::counts_of(file)?;
    step_in(file, n)
}

// What the four lines of a step tell.
fn lines_for(answer: Result<Tick, Refusal>) -> Result<Lines, Refusal>
    ensures { (given : MotionNumbers) → told_text result ≡ answer_text (step_answer given (asked answer)) }
{
    let tick = answer?;
    Ok(Lines {
        motion: MotionNumbers {
            feet: tick.motion.feet,
            velocity: tick.motion.velocity,
            on_ground: yes_number(tick.motion.on_ground),
        },
        liquid: tick.liquid,
    })
}

/// What `onetick` prints for a file: four lines, or `refused N`. It returns how many bytes that is; a buffer of fewer than 160 is left as it is,
/// and the answer is 0.
pub fn answer(file: &[u8], out: &mut [u8]) -> usize
    ensures out_after { out.new ≡ written out.old (answer_text (tick_of file.now)) }
    ensures value { result ≡ written_count out.old (answer_text (tick_of file.now)) }
{
    let told = lines_for(tick_of(file));
    text::write_answer(out, told)
}
