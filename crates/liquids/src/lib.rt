// Module 7: which liquid an item floats in, and which one a living body is in.
#![tactic(auto)]

mod flotation;
mod living;

pub use flotation::item_flotation;
pub use living::{living_liquid, living_liquid_in};
