// The theory is in specs/ and proofs/. It has no code.
#![tactic(auto)]
