// The type check: refusals 1 to 9 in their order, and the type of a term that passes. Each place where it refuses is one function.
#![tactic(auto)]

pub mod type_kinds; // type_kinds.rt: the kinds of type words
pub mod tables; // tables.rt: refusals 1 to 5, on the tables
pub mod term_words; // term_words.rt: refusals 6 and 7, on the term words
pub mod scope; // scope.rt: refusal 8, variables
pub mod node_type; // node_type.rt: the type of a single node
pub mod infer; // infer.rt: refusal 9, types
pub mod check; // check.rt: all of them, and the public call `check`
