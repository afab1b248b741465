// Words, tables and terms. The definitions stand in specs/, laws about them in proofs/.

#![tactic(auto)]
