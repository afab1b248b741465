// A node moves under a new binder, and the new variable stands for one of its parts.
ghost use Rattle.std.specs.Prelude.{◌≤◌, length};
ghost use Rattle.contraction.specs.Insertion.{PartRoom, InsertsPart, NodeRoom, InsertsNode};

use binding::rename::rename_into;
use words::fields::kind;
use words::shape::{binders, part_count};

// words read of a part, and words written
#[derive(Drop)]
struct Moved {
    pub read: usize,
    pub wrote: usize,
}

// a part moves too, its variables from `cut` on raised; or it is the one that is bound, of so many words, and the new variable stands for it
fn insert_part(
    calls: &[u64],
    t: &[u64],
    bound: Option<usize>,
    dst: &mut [u64],
    at: usize,
    cut: usize,
    pending: &mut [u64],
) -> Moved
    requires { PartRoom calls.now t.now bound (length dst.old) at cut × (cut ≤ 1) × (length t.now ≤ 8192) × (8194 ≤ length pending.old) }
    ensures { InsertsPart calls.now t.now bound dst.old dst.new at cut result }
{
    match bound {
        Some(size) => {
            dst[at] = 0;
            Moved {
                read: size,
                wrote: 1,
            }
        }
        None => {
            let n = rename_into(calls, t, dst, at, cut, 1, pending);
            Moved { read: n, wrote: n }
        }
    }
}

// the node at the front, with the new variable for the part of an index, which has `size` words
pub fn insert_node(
    calls: &[u64],
    t: &[u64],
    index: usize,
    size: usize,
    dst: &mut [u64],
    at: usize,
    pending: &mut [u64],
)
    requires { NodeRoom calls.now t.now index size (length dst.old) at × (length t.now ≤ 8192) × (8194 ≤ length pending.old) }
    ensures { InsertsNode calls.now t.now index dst.old dst.new at }
{
    let w = t[0];
    dst[at] = w;
    let k = kind(w);
    let n = part_count(calls, w);
    let mut read: usize = 1;
    let mut wrote: usize = 1;
    for j in 0..n {
        let bound = (j == index).then_some(size);
        let cut = binders(k, j);
        let part = insert_part(calls, &t[read..], bound, dst, at + wrote, cut, pending);
        read += part.read;
        wrote += part.wrote;
    }
}
