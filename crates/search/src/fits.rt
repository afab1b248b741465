// Whether a rule of phase 1 or 2 fits the node at the front.
ghost use Rattle.std.specs.Prelude.{◌≡◌, ◌≤◌, length, get_or};
ghost use Rattle.syntax.specs.Words.{kind_of};
ghost use Rattle.syntax.specs.Maybe.{option_of};
ghost use Rattle.words.specs.Fronts.{Starts};
ghost use Rattle.reduction.specs.FitByKinds.{let_by_kinds, rule_by_kinds};
ghost use Rattle.search.specs.Operands.{FindsOperand};
ghost use Rattle.search.specs.Fits.{case_by_kind, Fits};

use crate::value::{value_kind, value_test};
use reduction::{Phase, Rule};
use words::fields::kind;
use words::shape::{operand_count, part_count};

// an operand that is a computation: its index among the parts, and where its words start
#[derive(Clone, Copy)]
pub struct Operand {
    pub index: usize,
    pub start: usize,
}

// the first operand that is a computation; let insertion fits exactly if there is one
pub fn first_computation(calls: &[u64], t: &[u64]) -> Option<Operand>
    requires { Starts calls.now t.now × (length t.now ≤ 8192) }
    ensures { FindsOperand calls.now t.now result }
{
    let w = t[0];
    let n = part_count(calls, w);
    let m = operand_count(kind(w), n);
    let mut start: usize = 1;
    for index in 0..m {
        match value_test(calls, &t[start..]) {
            Some(size) => start += size,
            None => return Some(Operand { index, start }),
        }
    }
    None
}

// the kind of the word at an index, 0 past the end
// kept: kinds by number in this file and in unused.rt, since the search asks them of each word: with names every test takes two comparisons more,
// and phase 2 took a tenth longer and phase 3 a half (docs/DESIGN-PASS.md)
fn kind_at(t: &[u64], i: usize) -> u64
    ensures { result ≡ kind_of (get_or t.now i 0) }
{
    t.get(i).map_or(0, |&w| kind(w))
}

// the rule of phase 2 that fits a let, by the kind of its bound part and of that part's first part
#[tactic(auto, unfolding(reduction::specs::FitByKinds::let_by_kinds))]
fn fit_let(k1: u64, k2: u64) -> Option<Rule>
    ensures { result ≡ option_of (let_by_kinds k1 k2) }
{
    match k1 {
        4 => (!value_kind(k2)).then_some(Rule::LetOfLet),
        10 => (k2 == 0).then_some(Rule::LetOfCase),
        _ => value_kind(k1).then_some(Rule::LetValue),
    }
}

// the rule of phase 2 that fits a case, by the kind of its subject
#[tactic(auto, unfolding(crate::specs::Fits::case_by_kind))]
fn fit_case(k1: u64) -> Option<Rule>
    ensures { result ≡ option_of (case_by_kind k1) }
{
    match k1 {
        8 => Some(Rule::LeftCase),
        9 => Some(Rule::RightCase),
        _ => None,
    }
}

// the rule of phase 2 that fits a node, by its kind, its first part's, and that part's first part's: what a kind asks here is a rule, and
// no number of parts
#[tactic(auto, unfolding(reduction::specs::FitByKinds::rule_by_kinds, crate::specs::Fits::case_by_kind))]
fn fit_kinds(k0: u64, k1: u64, k2: u64) -> Option<Rule>
    ensures { result ≡ option_of (rule_by_kinds k0 k1 k2) }
{
    match k0 {
        3 => (k1 == 2).then_some(Rule::Apply),
        4 => fit_let(k1, k2),
        6 => (k1 == 5).then_some(Rule::First),
        7 => (k1 == 5).then_some(Rule::Second),
        10 => fit_case(k1),
        _ => None,
    }
}

// the rule of a phase that fits the node at the front
pub fn fit(phase: Phase, calls: &[u64], t: &[u64]) -> Option<Rule>
    requires { Starts calls.now t.now × (length t.now ≤ 8192) }
    ensures { Fits phase calls.now t.now result }
{
    match phase {
        Phase::Insertion => first_computation(calls, t)
            .is_some()
            .then_some(Rule::LetInsertion),
        Phase::Reduction => fit_kinds(kind_at(t, 0), kind_at(t, 1), kind_at(t, 2)),
        Phase::Dropping => None,
    }
}
