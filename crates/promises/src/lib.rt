// What the tender is owed, as theorems about what the functions return, is in specs/ and proofs/. It has no code.
#![tactic(auto)]
