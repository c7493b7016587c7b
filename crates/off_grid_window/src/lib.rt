// No code: how far an accepted move off the grid may end inside a block box, over the definitions of the move through a window.
#![tactic(auto)]
