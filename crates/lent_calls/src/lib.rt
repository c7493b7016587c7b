// What a host's calls do over a window and lent numbers: lengths and room first, and what is refused of them in order, then the entry below, and its
// answer written. drift.rt has the currents, window_moves.rt the moves, tick.rt the steps, falling.rt the steps with a fall record.
#![tactic(auto)]

mod drift;
mod falling;
mod tick;
mod window_moves;

pub use drift::current_into;
pub use falling::{falling_lent, falling_summed_lent};
pub use tick::{checked_lent, step_lent, summed_lent};
pub use window_moves::{move_lent, move_summed_lent};
