// The first redex of phase 1 or 2, from a place on.
ghost use Rattle.std.specs.Prelude.{◌≤◌, length};
ghost use Rattle.search.specs.Searches.{Continues, FindsFirst};

use crate::fits::fit;
use reduction::{Phase, Redex};

// the first node of these words that a rule of the phase fits, by a forward scan: the nodes of a term are its words, in index order.
// The definition `firstRedex` is about every phase, this function about phases 1 and 2.
pub fn first_redex(phase: Phase, calls: &[u64], rest: &[u64]) -> Option<Redex>
    requires { Continues phase calls.now rest.now × (length rest.now ≤ 8192) }
    ensures { FindsFirst phase calls.now rest.now result }
{
    for place in 0..rest.len() {
        if let Some(rule) = fit(phase, calls, &rest[place..]) {
            return Some(Redex { rule, place });
        }
    }
    None
}
