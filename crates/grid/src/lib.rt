// No code: demand 3, what an accepted move on the grid of 1/4096 comes to, over the definitions of the move.
#![tactic(auto)]
