// Numbers of several 64-bit words: definitions in specs/, laws over any number of words in proofs/.
#![tactic(auto)]
