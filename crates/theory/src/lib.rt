// Theorems about the definitions: demand 3. They stand in proofs/.

#![tactic(auto)]
