// The depths of the parts still to come, in a buffer: the next part's stands last, behind those of the parts after it.
ghost use Rattle.std.specs.Prelude.{◌+◌, ◌≤◌, length};
ghost use Rattle.syntax.specs.Parts.{part_count};
ghost use Rattle.words.specs.Depths.{OpensParts};

use crate::fields::kind;
use crate::shape::{last_binder, middle_binder, part_count};

// puts the depths of a node's parts in the place of its own, which is the last; answers how many there are then. Where there are
// parts, three are written whether or not the node has as many: that is faster than asking.
pub fn open_parts(calls: &[u64], w: u64, depth: u64, pending: &mut [u64], last: usize) -> usize
    requires { (last + 3 ≤ length pending.old) × (last + part_count calls.now w ≤ length pending.old) × (depth ≤ 131072) }
    ensures { OpensParts calls.now w depth pending.old pending.new last result }
{
    let k = kind(w);
    let n = part_count(calls, w);
    if n == 0 {
        return last;
    }
    pending[last] = depth + last_binder(k);
    pending[last + 1] = depth + middle_binder(k);
    pending[last + 2] = depth;
    if 3 < n {
        pending[last + 3..last + n].fill(depth);
    }
    last + n
}
