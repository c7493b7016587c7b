// No code: the steps behind the list of moves that the fall record's theorem is computed on.
#![tactic(auto)]
