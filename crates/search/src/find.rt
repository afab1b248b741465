// The first redex of a phase in the words behind the gap.
ghost use Rattle.search.specs.Finds.{Searchable, Finds};

use crate::redex::first_redex;
use crate::unused::first_unused;
use reduction::{Phase, Redex};
use words::calls::Calls;

// phases 1 and 2 by a scan of the words; phase 3, where they are the whole term, by one pass that counts uses in the buffer
pub fn find(phase: Phase, calls: &Calls, rest: &[u64], marks: &mut [u64]) -> Option<Redex>
    requires { Searchable phase calls.now rest.now marks.old }
    ensures { Finds phase calls.now rest.now result }
{
    match phase {
        Phase::Insertion | Phase::Reduction => first_redex(phase, calls.words(), rest),
        Phase::Dropping => first_unused(calls, rest, marks),
    }
}
