// The search of phase 3: the first let that binds a computation that may be dropped and whose variable is not used, by one pass that
// marks uses by depth.
ghost use Rattle.std.specs.Prelude.{◌≡◌, ◌+◌, ◌≤◌, length};
ghost use Rattle.words.specs.Fronts.{Starts};
ghost use Rattle.search.specs.Unused.{has_let, MarkSpace, MarksBinder, LeastMark, Scans, FindsUnused};

use crate::marks::mark;
use crate::may_drop::may_drop;
use crate::value::{value_kind, value_test};
use reduction::{Redex, Rule};
use words::calls::Calls;
use words::fields::{kind, number};
use words::shape::{outer_count, part_count};

// past every place: the mark of a binder that cannot be dropped, and what each use adds to a mark
// kept: a number and no Option, because marks are words of the caller's buffer and each use adds to one; with an Option for the place the
// uses would have to be counted in another buffer
const NO_PLACE: u64 = 65536;

// where a part ends, and the least place in it of a let that can be dropped, or NO_PLACE
#[derive(Drop)]
struct PartScan {
    pub end: usize,
    pub first: u64,
}

// the mark of the node's binder before any use: its place if it is a let that binds a computation that may be dropped. The kind of what it
// binds is asked before the value test, which it mostly spares.
fn open_mark(calls: &Calls, t: &[u64], place: usize) -> u64
    requires { Starts calls.now t.now × (length t.now ≤ 8192) × (place ≤ 65536) }
    ensures { MarksBinder calls.now t.now place result }
{
    if kind(t[0]) == 4
        && may_drop(calls, t[1])
        && (!value_kind(kind(t[1])) || value_test(calls.words(), &t[1..]).is_none())
    {
        place as u64
    } else {
        NO_PLACE
    }
}

// the least of `first` and the marks of the binders from a depth to another
fn least_mark(used: &[u64], start: usize, end: usize, first: u64) -> u64
    requires { (start ≤ end) × (end ≤ length used.now) }
    ensures { LeastMark used.now start end first result }
{
    used[start..end]
        .iter()
        .fold(first, |least, &mark| least.min(mark))
}

// goes through the part at the front, which begins at the place `base`. `owed` parts are ahead, and then `later` ones under one binder
// more, whose mark is `fresh`; a node that binds is gone into if it is the last one ahead, any other by a call of its own.
fn scan_part(calls: &Calls, t: &[u64], used: &mut [u64], depth: usize, base: usize) -> PartScan
    requires starts { Starts calls.now t.now × MarkSpace used.old depth (length t.now) }
    requires t_len_bound { (length t.now ≤ 8192) × (base + length t.now ≤ 65536) }
    ensures { Scans calls.now t.now base depth used.old used.new result }
{
    // the table's words are asked for once, and not at each node
    let table = calls.words();
    // kept: counted by hand, since a part is stepped over whole, and the loop ends when nothing is owed
    let mut owed: usize = 1;
    let mut later: usize = 0;
    let mut fresh: u64 = 0;
    let mut under = depth;
    let mut at: usize = 0;
    let mut first: u64 = NO_PLACE;
    while 0 < owed + later {
        if owed == 0 {
            used[under] = fresh;
            under += 1;
            owed = later;
            later = 0;
        } else {
            let w = t[at];
            let k = kind(w);
            if k == 0 {
                mark(used, under, number(w) as usize, NO_PLACE);
                at += 1;
                owed -= 1;
            } else {
                let n = part_count(table, w);
                let outer = outer_count(k, n);
                if outer == n {
                    at += 1;
                    owed = owed - 1 + n;
                } else if owed + later == 1 {
                    fresh = open_mark(calls, &t[at..], base + at);
                    at += 1;
                    owed = outer;
                    later = n - outer;
                } else {
                    let part = scan_part(calls, &t[at..], used, under, base + at);
                    first = first.min(part.first);
                    at += part.end;
                    owed -= 1;
                }
            }
        }
    }
    PartScan {
        end: at,
        first: least_mark(used, depth, under, first),
    }
}

// whether some word is a let's
fn has_let(t: &[u64]) -> bool
    ensures { result ≡ has_let t.now }
{
    t.iter().any(|&w| kind(w) == 4)
}

// the first let in the part at the front that can be dropped; uses are marked only where there is a let
pub fn first_unused(calls: &Calls, t: &[u64], used: &mut [u64]) -> Option<Redex>
    requires starts { Starts calls.now t.now × MarkSpace used.old 0 (length t.now) × (length t.now ≤ 8192) }
    ensures { FindsUnused calls.now t.now result }
{
    if !has_let(t) {
        return None;
    }
    let first = scan_part(calls, t, used, 0, 0).first;
    (first < NO_PLACE).then_some(Redex {
        rule: Rule::Drop,
        place: first as usize,
    })
}
