// Worked examples as theorems over the definitions: one list, in specs/ and proofs/. No code.
#![tactic(auto)]
