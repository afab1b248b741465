// A part with a value substituted for a variable, written into a buffer.
ghost use Rattle.std.specs.Prelude.{◌+◌, ◌≤◌, length};
ghost use Rattle.words.specs.Fronts.{Whole};
ghost use Rattle.binding.specs.Writes.{RoomFor, Substitutes, Raises};

use crate::lower::lowered;
use crate::rename::rename_into;
use words::depths::open_parts;
use words::fields::kind;
use words::moves::copy;

// writes the value to dst from `at` on, its variables raised by `by`; answers its size
fn put_value(
    calls: &[u64],
    value: &[u64],
    dst: &mut [u64],
    at: usize,
    by: usize,
    pending: &mut [u64],
) -> usize
    requires whole { Whole calls.now value.now × (at + length value.now ≤ length dst.old) × (length value.now ≤ 8192)
        × (by ≤ 65536) }
    requires value_in_bounds { length value.now + 2 ≤ length pending.old }
    ensures { Raises calls.now value.now dst.old dst.new at by result }
{
    if by == 0 {
        copy(value, 0, value.len(), dst, at);
        value.len()
    } else {
        rename_into(calls, value, dst, at, 0, by, pending)
    }
}

// writes the part at the front of body to dst from `at` on, with the value for the variable `depth`, the variables past it
// lowered by one; `pending` has the depths of the parts still to come, and then space for those of the value
pub fn substitute_into(
    calls: &[u64],
    body: &[u64],
    value: &[u64],
    dst: &mut [u64],
    at: usize,
    depth: usize,
    pending: &mut [u64],
)
    requires room_for { RoomFor calls.now body.now value.now (length dst.old) at depth (length pending.old) }
    requires body_bound { (depth + length body.now ≤ 65536) × (length value.now ≤ 8192) }
    ensures { Substitutes calls.now body.now value.now dst.old dst.new at depth }
{
    pending[0] = depth as u64;
    let mut owed = 1;
    let mut read = 0;
    let mut written = 0;
    // kept: the index is counted by hand, since the loop ends where no part is owed, and not where the words do
    while 0 < owed {
        let w = body[read];
        let last = owed - 1;
        let under = pending[last];
        read += 1;
        if w == under << 30 {
            let behind = &mut pending[owed..];
            written += put_value(calls, value, dst, at + written, under as usize, behind);
            owed = last;
        } else if kind(w) == 0 {
            dst[at + written] = lowered(w, under);
            written += 1;
            owed = last;
        } else {
            dst[at + written] = w;
            written += 1;
            owed = open_parts(calls, w, under, pending, last);
        }
    }
}
