// The plays of loads, as theorems in proofs/. It has no functions.
#![tactic(auto)]
