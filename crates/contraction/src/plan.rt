// How many words a redex has, how many it becomes, and how these are written; of a drop, how many words go.
ghost use Rattle.std.specs.Prelude.{◌≤◌, length};
ghost use Rattle.reduction.specs.declared.Rule.TheVariants.{LetInsertion, LetOfLet, LetOfCase, Apply, First, Second, LeftCase, RightCase};
ghost use Rattle.reduction.specs.declared.Rule.TheVariants.{LetValue, Drop};
ghost use Rattle.contraction.specs.Plans.{StartsRedex, Measures, Uncovers, Acts};

use crate::sizes::{body_with, size_from, substituted, two_sizes, uses_from};
use reduction::Rule;
use search::fits::{Operand, first_computation};
use words::ends::parts_size;
use words::shape::part_count;

// how what a redex becomes is put together, from parts that start at these indices
#[derive(Drop)]
pub enum Plan {
    // the body with the value, which has `size` words, for its variable
    Substitute {
        body: usize,
        value: usize,
        size: usize,
    },
    // one part as it is
    Copy {
        start: usize,
    },
    // of a let of a let, the inner and the outer body; the inner bound part starts at 2
    MoveLet {
        second: usize,
        third: usize,
    },
    // of a let of a case, the right branch and the outer body; the subject is the word at 2, and the left branch starts at 3
    MoveCase {
        right: usize,
        third: usize,
    },
    // the node, under a let that binds its part of that index, which has `size` words
    Insert {
        index: usize,
        start: usize,
        size: usize,
    },
}

// how what the redex becomes is written, the words read and the words written
#[derive(Drop)]
pub struct Measured {
    pub plan: Plan,
    pub read: usize,
    pub wrote: usize,
}

// what is done with a redex: it is rewritten as measured; or its first words go, so many, and the body behind them stays where it is, its
// variables lowered
#[derive(Drop)]
pub enum Action {
    Rewrite(Measured),
    Lower(usize),
}

// apply: the body stands at 2, the value behind it; the body comes first, so its uses are counted for every value
fn apply(calls: &[u64], t: &[u64], pending: &mut [u64]) -> Measured
    requires { StartsRedex Apply calls.now t.now × (length t.now ≤ 8192) × (8194 ≤ length pending.old) }
    ensures { Measures Apply calls.now t.now result }
{
    let body = uses_from(calls, t, 2, pending);
    let value = 2 + body.end;
    let size = size_from(calls, t, value);
    Measured {
        plan: Plan::Substitute {
            body: 2,
            value,
            size,
        },
        read: value + size,
        wrote: substituted(body.end, body.uses, size),
    }
}

// let value: the bound part stands at 1, the body behind it
fn let_value(calls: &[u64], t: &[u64], pending: &mut [u64]) -> Measured
    requires { StartsRedex LetValue calls.now t.now × (length t.now ≤ 8192) × (8194 ≤ length pending.old) }
    ensures { Measures LetValue calls.now t.now result }
{
    let size = size_from(calls, t, 1);
    let start = 1 + size;
    let body = body_with(calls, t, start, size, pending);
    Measured {
        plan: Plan::Substitute {
            body: start,
            value: 1,
            size,
        },
        read: start + body.end,
        wrote: body.wrote,
    }
}

// drop: the let's word goes, and the bound part, which stands at 1
fn drop_let(calls: &[u64], t: &[u64]) -> usize
    requires { StartsRedex Drop calls.now t.now × (length t.now ≤ 8192) }
    ensures { Uncovers Drop calls.now t.now result }
{
    1 + size_from(calls, t, 1)
}

// left case: the value stands at 2, then the branches
fn left_case(calls: &[u64], t: &[u64], pending: &mut [u64]) -> Measured
    requires { StartsRedex LeftCase calls.now t.now × (length t.now ≤ 8192) × (8194 ≤ length pending.old) }
    ensures { Measures LeftCase calls.now t.now result }
{
    let size = size_from(calls, t, 2);
    let left = 2 + size;
    let body = body_with(calls, t, left, size, pending);
    let right = left + body.end;
    let other = size_from(calls, t, right);
    Measured {
        plan: Plan::Substitute {
            body: left,
            value: 2,
            size,
        },
        read: right + other,
        wrote: body.wrote,
    }
}

// right case: the value stands at 2, then the branches
fn right_case(calls: &[u64], t: &[u64], pending: &mut [u64]) -> Measured
    requires { StartsRedex RightCase calls.now t.now × (length t.now ≤ 8192) × (8194 ≤ length pending.old) }
    ensures { Measures RightCase calls.now t.now result }
{
    let parts = two_sizes(calls, t, 2);
    let left = 2 + parts.first;
    let right = left + parts.second;
    let body = body_with(calls, t, right, parts.first, pending);
    Measured {
        plan: Plan::Substitute {
            body: right,
            value: 2,
            size: parts.first,
        },
        read: right + body.end,
        wrote: body.wrote,
    }
}

// first: the left half stands at 2, the right half behind it
fn first(calls: &[u64], t: &[u64]) -> Measured
    requires { StartsRedex First calls.now t.now × (length t.now ≤ 8192) }
    ensures { Measures First calls.now t.now result }
{
    let halves = two_sizes(calls, t, 2);
    Measured {
        plan: Plan::Copy { start: 2 },
        read: 2 + halves.first + halves.second,
        wrote: halves.first,
    }
}

// second: the left half stands at 2, the right half behind it
fn second(calls: &[u64], t: &[u64]) -> Measured
    requires { StartsRedex Second calls.now t.now × (length t.now ≤ 8192) }
    ensures { Measures Second calls.now t.now result }
{
    let halves = two_sizes(calls, t, 2);
    let start = 2 + halves.first;
    Measured {
        plan: Plan::Copy { start },
        read: start + halves.second,
        wrote: halves.second,
    }
}

// let of let: the inner bound part stands at 2, then the two bodies
fn let_of_let(calls: &[u64], t: &[u64]) -> Measured
    requires { StartsRedex LetOfLet calls.now t.now × (length t.now ≤ 8192) }
    ensures { Measures LetOfLet calls.now t.now result }
{
    let parts = two_sizes(calls, t, 2);
    let second = 2 + parts.first;
    let third = second + parts.second;
    let end = third + size_from(calls, t, third);
    Measured {
        plan: Plan::MoveLet { second, third },
        read: end,
        wrote: end,
    }
}

// let of case: the subject is the word at 2, the left branch stands at 3, then the right branch and the outer body
fn let_of_case(calls: &[u64], t: &[u64]) -> Measured
    requires { StartsRedex LetOfCase calls.now t.now × (length t.now ≤ 8192) }
    ensures { Measures LetOfCase calls.now t.now result }
{
    let branches = two_sizes(calls, t, 3);
    let right = 3 + branches.first;
    let third = right + branches.second;
    let body = size_from(calls, t, third);
    let end = third + body;
    Measured {
        plan: Plan::MoveCase { right, third },
        read: end,
        wrote: end + 1 + body,
    }
}

// let insertion: a let and a variable more; the part that is bound, which there is where the rule fits, is measured, and then those behind it
fn let_insertion(calls: &[u64], t: &[u64]) -> Measured
    requires { StartsRedex LetInsertion calls.now t.now × (length t.now ≤ 8192) }
    ensures { Measures LetInsertion calls.now t.now result }
{
    let Operand { index, start } = first_computation(calls, t).unwrap();
    let size = size_from(calls, t, start);
    let behind = start + size;
    let n = part_count(calls, t[0]);
    let end = behind + parts_size(calls, &t[behind..], n - 1 - index);
    Measured {
        plan: Plan::Insert { index, start, size },
        read: end,
        wrote: end + 2,
    }
}

// a redex of a rule: what is done with it
#[tactic(auto, using(crate::specs::Plans::is_rewritten, crate::specs::Plans::is_lowered))]
pub fn measure(rule: Rule, calls: &[u64], t: &[u64], pending: &mut [u64]) -> Action
    requires { StartsRedex rule calls.now t.now × (length t.now ≤ 8192) × (8194 ≤ length pending.old) }
    ensures { Acts rule calls.now t.now result }
{
    match rule {
        Rule::LetInsertion => Action::Rewrite(let_insertion(calls, t)),
        Rule::LetOfLet => Action::Rewrite(let_of_let(calls, t)),
        Rule::LetOfCase => Action::Rewrite(let_of_case(calls, t)),
        Rule::Apply => Action::Rewrite(apply(calls, t, pending)),
        Rule::First => Action::Rewrite(first(calls, t)),
        Rule::Second => Action::Rewrite(second(calls, t)),
        Rule::LeftCase => Action::Rewrite(left_case(calls, t, pending)),
        Rule::RightCase => Action::Rewrite(right_case(calls, t, pending)),
        Rule::LetValue => Action::Rewrite(let_value(calls, t, pending)),
        Rule::Drop => Action::Lower(drop_let(calls, t)),
    }
}
