// A part taken out from under a binder: its variables lowered, in place.
ghost use Rattle.std.specs.Prelude.{◌≡◌, ◌+◌, ◌≤◌, length};
ghost use Rattle.words.specs.Fronts.{Starts};
ghost use Rattle.binding.specs.Writes.{lowered_word, Lowers};

use words::depths::open_parts;
use words::fields::{kind, number};

// a variable's word, lowered by one if it is that of one past `depth`
pub fn lowered(w: u64, depth: u64) -> u64
    ensures { result ≡ lowered_word depth w }
{
    if depth < number(w) { w - (1 << 30) } else { w }
}

// lowers the variables of the part at the front past variable 0, which stays; `pending` has the depths of the parts still to come
pub fn lower_part(calls: &[u64], t: &mut [u64], pending: &mut [u64])
    requires { Starts calls.now t.old × (length t.old ≤ 65536) × (length t.old + 2 ≤ length pending.old) }
    ensures { Lowers calls.now t.old t.new }
{
    pending[0] = 0;
    let mut owed = 1;
    let mut at = 0;
    // kept: the index is counted by hand, since the loop ends where no part is owed, and not where the words do
    while 0 < owed {
        let w = t[at];
        let last = owed - 1;
        let under = pending[last];
        if kind(w) == 0 {
            t[at] = lowered(w, under);
            owed = last;
        } else {
            owed = open_parts(calls, w, under, pending, last);
        }
        at += 1;
    }
}
