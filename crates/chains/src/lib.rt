// Applying a plan keeps a drawing valid and its chains whole: definitions and proofs, no code.
#![tactic(auto)]
