// No code: two words exchanged in a block of the new mark, what the second check shows of it, and that such a file is refused.
#![tactic(auto)]
