// The larger skids of document 01 are in specs/ and proofs/, computed from the definitions. It has no code.
#![tactic(auto)]
