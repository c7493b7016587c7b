// A scene's tick, and its answer as bytes.
#![tactic(auto)]

mod tick;

pub use tick::{answer, tick_of};
