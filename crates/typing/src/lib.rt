// Typing and the refusals 1 to 9. The definitions stand in specs/, laws about them in proofs/.

#![tactic(auto)]
