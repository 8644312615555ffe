// Units of capacity: their owners and what they count stand in specs/, and the laws of both in proofs/.
#![tactic(auto)]
