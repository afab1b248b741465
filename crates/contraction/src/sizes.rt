// How many words parts have that stand at an index, and how many a body has with a value for its variable.
ghost use Rattle.std.specs.Prelude.{◌≡◌, ◌+◌, ◌-◌, ◌*◌, ◌≤◌, length};
ghost use Rattle.words.specs.Fronts.{from};
ghost use Rattle.words.specs.Ends.{Sized};
ghost use Rattle.binding.specs.UseCounts.{CountsUses};
ghost use Rattle.contraction.specs.Sizes.{StartsAt, StartsTwo, SizedTwo, BodyWith};

use binding::uses::{Uses, count_uses};
use words::ends::part_size;

// how many words a part has, and the part behind it
#[derive(Drop)]
pub struct TwoSizes {
    pub first: usize,
    pub second: usize,
}

// how many words a body has, and how many it becomes with a value for its variable
#[derive(Drop)]
pub struct Body {
    pub end: usize,
    pub wrote: usize,
}

// the size of a body of so many words that uses its variable so often, with a value of so many words for it
pub fn substituted(end: usize, uses: usize, size: usize) -> usize
    requires { (uses ≤ end) × (end ≤ 8192) × (size ≤ 8192) }
    ensures { result ≡ end - uses + uses * size }
{
    uses * size + (end - uses)
}

// how many words the part that starts at an index has
pub fn size_from(calls: &[u64], t: &[u64], at: usize) -> usize
    requires { StartsAt calls.now t.now at × (length t.now ≤ 8192) }
    ensures { Sized calls.now (from t.now at) result }
{
    part_size(calls, &t[at..])
}

// the same of that part and of the part behind it
pub fn two_sizes(calls: &[u64], t: &[u64], at: usize) -> TwoSizes
    requires { StartsTwo calls.now t.now at × (length t.now ≤ 8192) }
    ensures { SizedTwo calls.now t.now at result.first result.second }
{
    let first = size_from(calls, t, at);
    let second = size_from(calls, t, at + first);
    TwoSizes { first, second }
}

// where the part that starts at an index ends, counted from there, and how often it uses the variable that its node binds
pub fn uses_from(calls: &[u64], t: &[u64], at: usize, pending: &mut [u64]) -> Uses
    requires { StartsAt calls.now t.now at × (length t.now ≤ 8192) × (8194 ≤ length pending.old) }
    ensures { CountsUses calls.now (from t.now at) 0 result }
{
    count_uses(calls, &t[at..], 0, pending)
}

// the body that starts at an index, with a value of `size` words for the variable that its node binds. A value of one word leaves it as
// long as it is, so uses are counted only for longer ones.
#[tactic(auto, using(crate::proofs::RedexSizes::counted_body, crate::proofs::RedexSizes::word_body))]
pub fn body_with(calls: &[u64], t: &[u64], at: usize, size: usize, pending: &mut [u64]) -> Body
    requires { StartsAt calls.now t.now at × (length t.now ≤ 8192) × (size ≤ 8192) × (8194 ≤ length pending.old) }
    ensures { BodyWith calls.now (from t.now at) size result }
{
    if size == 1 {
        let end = size_from(calls, t, at);
        Body { end, wrote: end }
    } else {
        let Uses { end, uses } = uses_from(calls, t, at, pending);
        Body {
            end,
            wrote: substituted(end, uses, size),
        }
    }
}
