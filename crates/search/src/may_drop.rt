// Whether a part may be dropped, by its first word.
ghost use Rattle.std.specs.Prelude.{◌≡◌};
ghost use Rattle.syntax.specs.Words.{kind_of, number_of};
ghost use Rattle.search.specs.NodeMayDrop.{node_may_drop};

use words::calls::Calls;
use words::fields::{kind, number};

// not an acting call, and not an application where some call of the table acts
// kept: the kind by number, since phase 3 asks it of each let (docs/DESIGN-PASS.md)
#[tactic(auto, unfolding(crate::specs::NodeMayDrop::node_may_drop))]
pub fn may_drop(calls: &Calls, w: u64) -> bool
    ensures { result ≡ node_may_drop calls.now (kind_of w) (number_of w) }
{
    match kind(w) {
        1 => !calls.acts(number(w)),
        3 => !calls.any_acts(),
        _ => true,
    }
}
