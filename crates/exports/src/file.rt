// One tick of a scene file.
ghost use Rattle.std.specs.Prelude.{◌≡◌, length};
ghost use Rattle.lent_steps.specs.Steps.{step_refusal, step_written};
ghost use Rattle.scene.specs.Scene.{tick_of};

// One tick of the scene in `file`. It writes the ten numbers of `boltjuniper_step` and returns 0; or it returns a refusal and writes
// nothing: 8, then 1 to 4, then 11 where `out` has no room for ten numbers, then 5, 6 or 7. The words of a file are copied to two
// arrays of 15,744 words on the stack before the step: 126 KB.
#[unsafe(no_mangle)]
pub extern "C" fn boltjuniper_tick(file: &[u8], out: &mut [f64]) -> u32
    ensures value { result ≡ step_refusal (length out.old) (tick_of file.now) }
    ensures out_after { out.new ≡ step_written out.old (tick_of file.now) }
{
    let answer = scene::tick_of(file);
    base::code(lent_steps::step_into(out, answer))
}
