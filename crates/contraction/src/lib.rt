// A redex rewritten on words: how many words it has and becomes, how to write these, and writing them.
// `pending` is space that going through parts takes; nothing is kept in it from call to call.
#![tactic(auto)]

pub mod sizes; // sizes.rt: how many words parts have, and a body with a value for its variable
pub mod plan; // plan.rt: what is done with a redex, how many words it becomes, and how they are written
pub mod insert; // insert.rt: a node under a new binder, its variable for one of the parts
pub mod write; // write.rt: what a redex becomes, by its plan
