// Whether a term is a normal form, on words, and the public call `is_normal`.
#![tactic(auto)]

pub mod normal; // normal.rt: the test for a normal form and the test for a normal value
pub mod is_normal; // is_normal.rt: the public call `is_normal`
