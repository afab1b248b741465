// A part with its variables raised, written into a buffer.
ghost use Rattle.std.specs.Prelude.{◌≡◌, ◌+◌, ◌≤◌, length};
ghost use Rattle.syntax.specs.Words.{kind_of};
ghost use Rattle.binding.specs.Writes.{raised_word, Room, Renames};

use words::depths::open_parts;
use words::fields::{kind, number};

// a variable's word, raised if it is that of one from `cut` on
fn raised(w: u64, cut: u64, by: usize) -> u64
    requires { (kind_of w ≡ 0) × (by ≤ 65536) }
    ensures { result ≡ raised_word cut by w }
{
    if cut <= number(w) {
        w + ((by as u64) << 30)
    } else {
        w
    }
}

// writes the part at the front of src to dst from `at` on, its variables from `cut` on raised by `by`; answers its size;
// `pending` has the depths of the parts still to come
pub fn rename_into(
    calls: &[u64],
    src: &[u64],
    dst: &mut [u64],
    at: usize,
    cut: usize,
    by: usize,
    pending: &mut [u64],
) -> usize
    requires { Room calls.now src.now (length dst.old) at × (cut + length src.now ≤ 65536) × (by ≤ 65536)
        × (length src.now + 2 ≤ length pending.old) }
    ensures { Renames calls.now src.now dst.old dst.new at cut by result }
{
    pending[0] = cut as u64;
    let mut owed = 1;
    let mut size = 0;
    // kept: the index is counted by hand, since the loop ends where no part is owed, and not where the words do
    while 0 < owed {
        let w = src[size];
        let last = owed - 1;
        let under = pending[last];
        if kind(w) == 0 {
            dst[at + size] = raised(w, under, by);
            owed = last;
        } else {
            dst[at + size] = w;
            owed = open_parts(calls, w, under, pending, last);
        }
        size += 1;
    }
    size
}
