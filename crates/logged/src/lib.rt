// The minute of a log file: its scene's body through its events, and what is printed of it. run.rt has the run, and lines.rt its lines as bytes.
#![tactic(auto)]

mod lines;
mod run;

pub use lines::answer;
pub use run::{run_first, run_log};
