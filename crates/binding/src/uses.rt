// How often a part uses a variable.
ghost use Rattle.std.specs.Prelude.{◌≡◌, ◌+◌, ◌≤◌, eqb, length};
ghost use Rattle.syntax.specs.Values.{counts};
ghost use Rattle.syntax.specs.Words.{pack};
ghost use Rattle.words.specs.Fronts.{Starts};
ghost use Rattle.binding.specs.UseCounts.{CountsUses};

use words::depths::open_parts;

// where a part ends, and how often it uses a variable
#[derive(Drop)]
pub struct Uses {
    pub end: usize,
    pub uses: usize,
}

// 1 if a word is that of the variable `depth`, else 0
fn is_variable(w: u64, depth: u64) -> usize
    requires { depth ≤ 131072 }
    ensures { (result ≡ counts (eqb w (pack 0 depth 0))) × (result ≤ 1) }
{
    usize::from(w == depth << 30)
}

// where the part at the front ends, and how often it uses the variable `depth`; `pending` has the depths of the parts still to come
pub fn count_uses(calls: &[u64], t: &[u64], depth: usize, pending: &mut [u64]) -> Uses
    requires { Starts calls.now t.now × (depth + length t.now ≤ 65536) × (length t.now + 2 ≤ length pending.old) }
    ensures { CountsUses calls.now t.now depth result }
{
    pending[0] = depth as u64;
    let mut owed = 1;
    let mut end = 0;
    let mut uses = 0;
    // kept: the index is counted by hand, since the loop ends where no part is owed, and not where the words do
    while 0 < owed {
        let w = t[end];
        let last = owed - 1;
        let under = pending[last];
        uses += is_variable(w, under);
        owed = open_parts(calls, w, under, pending, last);
        end += 1;
    }
    Uses { end, uses }
}
