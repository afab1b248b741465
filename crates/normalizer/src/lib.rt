// The call that normalizes: the loop over phases and steps, and the outcome.
#![tactic(auto)]

pub mod settings; // settings.rt: settings without ceilings
pub mod reduce; // reduce.rt: the loop over phases and steps
pub mod normalize; // normalize.rt: the public call `normalize`
