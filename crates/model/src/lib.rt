// The mathematics of gate networks and their clusterings. No code: definitions in specs/, laws in proofs/.
#![tactic(auto)]
