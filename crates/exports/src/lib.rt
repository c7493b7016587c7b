// What a host in another language links: functions on numbers and lent slices of them. Here is the order of their parameters; what is refused of
// these, how an answer is written, and what they do stands in the crates below.
#![tactic(auto)]

mod drift;
mod falling;
mod file;
mod night;
mod over;
mod summed;
mod tick;
mod window_moves;

ghost use Rattle.std.specs.Prelude.{◌≡◌};
ghost use Rattle.floats.specs.Numbers.{is_finite, answer_where};
ghost use Rattle.wholes.specs.Whole.{floor_of, ceil_of, cell_of};
ghost use Rattle.roots.specs.Root.{has_root, root_of};
ghost use Rattle.table_check.specs.Check.{table_refusal};

pub use drift::boltjuniper_item_current;
pub use falling::boltjuniper_step_falling;
pub use file::boltjuniper_tick;
pub use night::{boltjuniper_midnight, boltjuniper_midnight_capped};
pub use over::{boltjuniper_move_over, boltjuniper_move_over_list};
pub use summed::{
    boltjuniper_build_summary, boltjuniper_check_summary, boltjuniper_move_summed,
    boltjuniper_set_block, boltjuniper_step_falling_summed, boltjuniper_step_summed,
};
use tables::Tables;
pub use tick::{boltjuniper_step, boltjuniper_step_checked};
pub use window_moves::boltjuniper_move;

// Floor, ceiling, root and cell, to be timed alone: a refusal hands back zero, as module 1 has it.

#[unsafe(no_mangle)]
pub extern "C" fn boltjuniper_floor(x: f64) -> f64
    ensures { result ≡ (answer_where (is_finite x) (floor_of x)).value }
{
    wholes::floor(x).unwrap_or(0.0)
}

#[unsafe(no_mangle)]
pub extern "C" fn boltjuniper_ceil(x: f64) -> f64
    ensures { result ≡ (answer_where (is_finite x) (ceil_of x)).value }
{
    wholes::ceil(x).unwrap_or(0.0)
}

#[unsafe(no_mangle)]
pub extern "C" fn boltjuniper_root(x: f64) -> f64
    ensures { result ≡ (answer_where (has_root x) (root_of x)).value }
{
    roots::sqrt(x).unwrap_or(0.0)
}

#[unsafe(no_mangle)]
pub extern "C" fn boltjuniper_cell(x: f64) -> i32
    ensures { result ≡ cell_of x }
{
    wholes::cell(x)
}

#[unsafe(no_mangle)]
pub extern "C" fn boltjuniper_check_tables(records: &[u32], shapes: &[f32]) -> u32
    ensures { result ≡ table_refusal records.now shapes.now }
{
    base::code(table_check::check_tables(Tables { records, shapes }))
}
