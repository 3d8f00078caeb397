// What the player prints for some scripts, as theorems in proofs/. It has no functions.
#![tactic(auto)]
