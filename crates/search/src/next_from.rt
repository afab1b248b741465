// Where the search of a phase goes on after a step.
ghost use Rattle.std.specs.Prelude.{◌≡◌};
ghost use Rattle.search.specs.NextFrom.{next_from};

use reduction::Phase;

// the place from which the phase is searched after a step at this place: before it no rule of the phase fits
#[tactic(auto, unfolding(crate::specs::NextFrom::next_from))]
pub fn next_from(phase: Phase, place: usize) -> usize
    ensures { result ≡ next_from phase place }
{
    match phase {
        Phase::Insertion => place,
        Phase::Reduction => place.saturating_sub(1),
        Phase::Dropping => 0,
    }
}
