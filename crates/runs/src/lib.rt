// What holds of whole runs of the link: claims in specs/, theorems in proofs/. It has no functions.
#![tactic(auto)]
