// No code: raising the cap alters no outcome other than a refusal 6.
#![tactic(auto)]
