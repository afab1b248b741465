// Runs of terms, and what is claimed of normalization (demand 3). The definitions stand in specs/.

#![tactic(auto)]
