// What every text answers, and the text that a network spells. No code: definitions in specs/, laws in proofs/.
#![tactic(auto)]
