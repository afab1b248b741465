// One step of the reduction, in place: the term stands around a gap, which goes from redex to redex.
#![tactic(auto)]

pub mod gap; // gap.rt: a term around a gap, and the gap moved
pub mod rewrite; // rewrite.rt: the redex behind the gap rewritten in place
pub mod counts; // counts.rt: the ten counts and the ten ceilings
pub mod turn; // turn.rt: one turn of the reduction
