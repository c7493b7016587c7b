// What is written of a minute is read: theorems over the definitions. No code.
#![tactic(auto)]
