// What a redex becomes, written into a buffer by its plan.
ghost use Rattle.std.specs.Prelude.{◌+◌, ◌≤◌, length};
ghost use Rattle.contraction.specs.declared.plan.Plan.TheVariants.{Substitute, MoveLet, MoveCase, Insert};
ghost use Rattle.contraction.specs.Writers.{LetRoom, WritesLet, PlanRoom, SizedPlanRoom, WritesPlan};

use crate::insert::insert_node;
use crate::plan::Plan;
use binding::rename::rename_into;
use binding::substitute::substitute_into;
use words::moves::copy;

// the word of a let, which has a kind and no other field
const LET: u64 = 4 << 60;

// the word of a case
const CASE: u64 = 10 << 60;

// a let that binds the part from `start` to `end`, over the body of another let that moves under it; answers its size
fn let_over(
    calls: &[u64],
    t: &[u64],
    start: usize,
    end: usize,
    body: usize,
    dst: &mut [u64],
    at: usize,
    pending: &mut [u64],
) -> usize
    requires { LetRoom calls.now t.now start end body (length dst.old) at × (length t.now ≤ 8192)
        × (8194 ≤ length pending.old) }
    ensures { WritesLet calls.now t.now start end body dst.old dst.new at result }
{
    let size = end - start;
    dst[at] = LET;
    copy(t, start, size, dst, at + 1);
    let moved = rename_into(calls, &t[body..], dst, at + 1 + size, 1, 1, pending);
    1 + size + moved
}

// a body with a value for its variable
fn substitute(
    calls: &[u64],
    t: &[u64],
    body: usize,
    value: usize,
    size: usize,
    dst: &mut [u64],
    pending: &mut [u64],
)
    requires { PlanRoom calls.now t.now (Substitute body value size) (length dst.old) × (length t.now ≤ 8192)
        × (8194 ≤ length pending.old) }
    ensures { WritesPlan calls.now t.now (Substitute body value size) dst.old dst.new }
{
    let end = value + size;
    substitute_into(calls, &t[body..], &t[value..end], dst, 0, 0, pending);
}

// let of let: the inner let's bound part, then the inner body and the outer body under it
fn move_let(
    calls: &[u64],
    t: &[u64],
    second: usize,
    third: usize,
    dst: &mut [u64],
    pending: &mut [u64],
)
    requires { PlanRoom calls.now t.now (MoveLet second third) (length dst.old) × (length t.now ≤ 8192)
        × (8194 ≤ length pending.old) }
    ensures { WritesPlan calls.now t.now (MoveLet second third) dst.old dst.new }
{
    dst[0] = LET;
    copy(t, 2, second - 2, dst, 1);
    let_over(calls, t, second, third, third, dst, second - 1, pending);
}

// let of case: the case and its subject, then the outer let in both branches
fn move_case(
    calls: &[u64],
    t: &[u64],
    right: usize,
    third: usize,
    dst: &mut [u64],
    pending: &mut [u64],
)
    requires { PlanRoom calls.now t.now (MoveCase right third) (length dst.old) × (length t.now ≤ 8192)
        × (8194 ≤ length pending.old) }
    ensures { WritesPlan calls.now t.now (MoveCase right third) dst.old dst.new }
{
    dst[0] = CASE;
    dst[1] = t[2];
    let left = let_over(calls, t, 3, right, third, dst, 2, pending);
    let_over(calls, t, right, third, third, dst, 2 + left, pending);
}

// let insertion: the part that is bound, then the node with the new variable in it
fn insert_let(
    calls: &[u64],
    t: &[u64],
    index: usize,
    start: usize,
    size: usize,
    dst: &mut [u64],
    pending: &mut [u64],
)
    requires { PlanRoom calls.now t.now (Insert index start size) (length dst.old) × (length t.now ≤ 8192)
        × (8194 ≤ length pending.old) }
    ensures { WritesPlan calls.now t.now (Insert index start size) dst.old dst.new }
{
    dst[0] = LET;
    copy(t, start, size, dst, 1);
    insert_node(calls, t, index, size, dst, 1 + size, pending);
}

// what the plan says, so many words, to the front of dst
pub fn write(
    plan: Plan,
    calls: &[u64],
    t: &[u64],
    dst: &mut [u64],
    wrote: usize,
    pending: &mut [u64],
)
    requires { SizedPlanRoom calls.now t.now plan (length dst.old) wrote × (length t.now ≤ 8192)
        × (8194 ≤ length pending.old) }
    ensures { WritesPlan calls.now t.now plan dst.old dst.new }
{
    match plan {
        Plan::Substitute { body, value, size } => substitute(
            calls, t, body, value, size, dst, pending,
        ),
        Plan::Copy { start } => copy(t, start, wrote, dst, 0),
        Plan::MoveLet { second, third } => move_let(calls, t, second, third, dst, pending),
        Plan::MoveCase { right, third } => move_case(calls, t, right, third, dst, pending),
        Plan::Insert { index, start, size } => insert_let(
            calls, t, index, start, size, dst, pending,
        ),
    }
}
