// What is written is read, and what is read is written: theorems over the definitions. No code.
#![tactic(auto)]
