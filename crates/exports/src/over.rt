// The move over boxes of the host's own.
ghost use Rattle.std.specs.Prelude.{◌≡◌, length};
ghost use Rattle.lent_numbers.specs.Written.{written_by};
ghost use Rattle.lent_moves.specs.Moves.{move_any_of, move_list_of};

// For any numbers, to be timed beside the original: it looks at no limit, takes what is not there for 0 and drops what there is no room for.
// For more boxes than a list holds it writes nothing and returns 6.
#[unsafe(no_mangle)]
pub extern "C" fn boltjuniper_move_over(
    boxes: &[f64],
    mover: &[f64],
    step: f64,
    grounded: u32,
    out: &mut [f64],
) -> u32
    ensures value { result ≡ (move_any_of boxes.now mover.now step grounded).refusal }
    ensures out_after { out.new ≡ written_by out.old (move_any_of boxes.now mover.now step grounded) }
{
    base::code(lent_moves::move_over_any(boxes, mover, step, grounded, out))
}

// For a host: `boxes` has six numbers to a box, `mover` is the box and its delta, nine numbers, and `grounded` is 1 where the body was on
// the ground, else 0; `cap` is how many boxes there may be, 0 to 512, where 0 stands for 512. It writes ten numbers and returns 0, or writes nothing
// and returns 3, 4, 11 or 6.
#[unsafe(no_mangle)]
pub extern "C" fn boltjuniper_move_over_list(
    boxes: &[f64],
    mover: &[f64],
    step: f64,
    grounded: u32,
    cap: u32,
    out: &mut [f64],
) -> u32
    ensures value { result ≡ (move_list_of cap boxes.now mover.now step grounded (length out.old)).refusal }
    ensures out_after { out.new ≡ written_by out.old (move_list_of cap boxes.now mover.now step grounded (length out.old)) }
{
    base::code(lent_moves::move_over_lent(cap, boxes, mover, step, grounded, out))
}
