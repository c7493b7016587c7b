// No code: the small scenes of document 01 that are proved, one table and one statement.
#![tactic(auto)]
