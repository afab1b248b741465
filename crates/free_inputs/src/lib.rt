// Which inputs a term reads, on words, and the public call `free_inputs`.
#![tactic(auto)]

pub mod marks; // marks.rt: the pass that marks the inputs a term reads
pub mod free_inputs; // free_inputs.rt: the public call `free_inputs`
