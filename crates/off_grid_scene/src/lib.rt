// No code: a body beside a fence, which meets the premises of crates/off_grid_window.
#![tactic(auto)]
