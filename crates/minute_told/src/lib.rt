// What is told of a minute that was run: lines.rt writes its lines as bytes, and numbers.rt its state as numbers.
#![tactic(auto)]

mod lines;
mod numbers;

pub use lines::put_text;
pub use numbers::minute_into;
