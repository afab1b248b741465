// The ten counts and the ten ceilings, one of each for every rule.
ghost use Rattle.std.specs.Prelude.{◌≡◌, ℕ, ◌<◌, get_or};
ghost use Rattle.reduction.specs.Reduction.{index, ceiling_met, raise as raise_of};

use reduction::Rule;

// the place of a rule's count and of its ceiling
fn index_of(rule: Rule) -> usize
    ensures { result ≡ index rule }
{
    rule as usize
}

// the counts with one more for a rule
// kept: the place is looked for by a loop, since a write at a place that is not known before would be waited for where the ten are copied
// right behind it
pub fn raise(counts: [u32; 10], rule: Rule) -> [u32; 10]
    requires { (i : ℕ) → get_or counts i 0 < 4294967295 }
    ensures { result ≡ raise_of rule counts }
{
    let i = index_of(rule);
    let mut raised = counts;
    for k in 0..10 {
        if k == i {
            raised[k] += 1;
        }
    }
    raised
}

// whether a rule has been used as often as its ceiling says
pub fn ceiling_met(ceilings: [u32; 10], rule: Rule, counts: [u32; 10]) -> bool
    ensures { result ≡ ceiling_met ceilings rule counts }
{
    let i = index_of(rule);
    ceilings[i] <= counts[i]
}
