// Where a part ends: the one loop that finds it.
ghost use Rattle.std.specs.Prelude.{◌≡◌, ◌≤◌, length};
ghost use Rattle.syntax.specs.Parts.{extent, part_end};
ghost use Rattle.syntax.specs.Maybe.{option_of};
ghost use Rattle.words.specs.Ends.{Sized, SizedAll};
ghost use Rattle.words.specs.Fronts.{Starts, StartsAll};

use crate::shape::{argument_counts, known_parts, part_counts};

// where the first n parts end, by a loop over words that keeps how many parts are still owed. It ends when none is, or no word is left; a
// word whose number of parts is not known owes more than the words behind it.
#[tactic(auto, using(crate::proofs::Extents::owing))]
fn parts_end(calls: &[u64], t: &[u64], n: usize) -> Option<usize>
    requires { (length t.now ≤ 8192) × (n ≤ 8192) }
    ensures { result ≡ option_of (extent calls.now t.now n) }
{
    let counts = part_counts();
    let arities = argument_counts();
    let mut owed = n;
    let mut rest = t;
    while 0 < owed {
        let (&w, behind) = rest.split_first()?;
        rest = behind;
        owed = owed - 1 + known_parts(calls, &counts, &arities, w, t.len());
    }
    Some(t.len() - rest.len())
}

// where the part at the front ends, of any words; nowhere if no front of them is one term
#[tactic(auto, unfolding(syntax::specs::Parts::part_end))]
pub fn part_end(calls: &[u64], t: &[u64]) -> Option<usize>
    requires { length t.now ≤ 8192 }
    ensures { result ≡ option_of (part_end calls.now t.now) }
{
    parts_end(calls, t, 1)
}

// how many words the n parts at the front have
pub fn parts_size(calls: &[u64], t: &[u64], n: usize) -> usize
    requires { StartsAll calls.now t.now n × (length t.now ≤ 8192) }
    ensures { SizedAll calls.now t.now n result }
{
    parts_end(calls, t, n).unwrap_or(0)
}

// how many words the part at the front has
pub fn part_size(calls: &[u64], t: &[u64]) -> usize
    requires { Starts calls.now t.now × (length t.now ≤ 8192) }
    ensures { Sized calls.now t.now result }
{
    parts_size(calls, t, 1)
}
