// Desk, wall and reference machine over any edit function, and the chains of curves that edits leave: definitions and proofs, no code.
#![tactic(auto)]
