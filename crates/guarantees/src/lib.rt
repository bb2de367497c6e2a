// Theorems about every run of the box: see specs/ and proofs/. There is no code here.
#![tactic(auto)]
