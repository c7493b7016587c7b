// No code: a buffer in two halves, one for each of two parties, and that they and what is nobody's make it up.
#![tactic(auto)]
