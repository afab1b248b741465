// Variables and binders on words: how often a variable is used, renaming, substitution.
#![tactic(auto)]

pub mod uses; // uses.rt: how often a part uses a variable
pub mod rename; // rename.rt: a part with its variables raised, into a buffer
pub mod lower; // lower.rt: a part taken out from under a binder, in place
pub mod substitute; // substitute.rt: a part with a value for a variable, into a buffer
