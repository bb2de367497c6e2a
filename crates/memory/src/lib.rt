// Theorems about the program's memory: see specs/ and proofs/. There is no code here.
#![tactic(auto)]
