// The search for redexes, on words.
#![tactic(auto)]

pub mod value; // value.rt: whether a part is a value, and where it ends
pub mod fits; // fits.rt: whether a rule of phase 1 or 2 fits the node at the front
pub mod redex; // redex.rt: the first redex of phase 1 or 2, from a place on
pub mod marks; // marks.rt: how often each binder in scope is used, by its depth
pub mod may_drop; // may_drop.rt: whether a part may be dropped, by its first word
pub mod unused; // unused.rt: the search of phase 3, for a let that may be dropped and whose variable is not used
pub mod find; // find.rt: the first redex of any phase
pub mod next_from; // next_from.rt: where the search of a phase goes on after a step
