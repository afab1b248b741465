// The test for a normal form (paper 01: the flat test) and the test for a normal value, each by way of the other.
ghost use Rattle.std.specs.Prelude.{◌≡◌, ◌≤◌, length};
ghost use Rattle.syntax.specs.Words.{kind_of, number_of};
ghost use Rattle.words.specs.Fronts.{Starts};
ghost use Rattle.words.specs.KindCodes.{code};
ghost use Rattle.search.specs.Marks.{Space};
ghost use Rattle.search.specs.NodeMayDrop.{node_may_drop};
ghost use Rattle.normal_form.specs.Roles.{first_role, later_role, role_of, suits, operation_kind, keeps_variable};
ghost use Rattle.normal_form.specs.NormalTest.{is_normal_form, is_normal_value, TestsNormal, Decides};

use checker::check::OTHER_LIMIT;
use search::marks::mark;
use search::may_drop::may_drop;
use search::value::is_value_kind;
use words::calls::Calls;
use words::fields::{kind, number};
use words::kinds::Kind;
use words::shape::{binders, part_count};

// what a part of an operation, a let or a case in normal form has to be
#[derive(Drop)]
enum Role {
    Variable,
    Value,
    Operation,
    Normal,
}

// the kinds of operations: call, application, first, second. A question about single kinds, and not about their parts.
#[tactic(auto, unfolding(crate::specs::Roles::operation_kind))]
fn operation_kind(kind: Kind) -> bool
    ensures { result ≡ operation_kind (code kind) }
{
    matches!(
        kind,
        Kind::Call | Kind::Application | Kind::First | Kind::Second
    )
}

// what the first part of a node has to be: a match, as only a call and a let differ from the rest
fn first_role(kind: Kind) -> Role
    ensures { result ≡ first_role (code kind) }
{
    match kind {
        Kind::Call => Role::Value,
        Kind::Let => Role::Operation,
        _ => Role::Variable,
    }
}

// what a later part has to be: a match, as only a call and an application differ from the rest
fn later_role(kind: Kind) -> Role
    ensures { result ≡ later_role (code kind) }
{
    match kind {
        Kind::Call | Kind::Application => Role::Value,
        _ => Role::Normal,
    }
}

// what part j of a node of a kind has to be
#[tactic(auto, unfolding(crate::specs::Roles::role_of))]
fn role_of(kind: Kind, j: usize) -> Role
    ensures { result ≡ role_of (code kind) j }
{
    if j == 0 {
        first_role(kind)
    } else {
        later_role(kind)
    }
}

// whether a part that begins with a node of this kind can be what it has to be
#[tactic(auto, unfolding(crate::specs::Roles::suits))]
fn admits(role: Role, kind: Kind) -> bool
    ensures { result ≡ suits role (code kind) }
{
    match role {
        Role::Variable => kind == Kind::Variable,
        Role::Value => is_value_kind(kind),
        Role::Operation => operation_kind(kind),
        Role::Normal => true,
    }
}

// whether the variable that part j of a node of a kind binds has to be used, and if so whether it is. A let stays without a use if what it
// binds, which begins with the word `bound`, may not be dropped.
#[tactic(auto, unfolding(crate::specs::Roles::keeps_variable))]
fn keeps(calls: &Calls, kind: Kind, j: usize, bound: u64, uses: u64) -> bool
    ensures { result ≡ keeps_variable (code kind) j (node_may_drop calls.now (kind_of bound) (number_of bound)) uses }
{
    kind != Kind::Let || j == 0 || 1 <= uses || !may_drop(calls, bound)
}

// whether the part at the front is a value in normal form: if so, where it ends
#[cycle(normal_test_normal_value_test)]
fn normal_value_test(calls: &Calls, t: &[u64], used: &mut [u64], depth: usize) -> Option<usize>
    requires { Starts calls.now t.now × Space 1 used.old depth (length t.now) }
    ensures { TestsNormal is_normal_value calls.now t.now depth used.old used.new result }
{
    let w = t[0];
    let k = Kind::of(w);
    if k == Kind::Variable {
        mark(used, depth, number(w) as usize, 1);
        return Some(1);
    }
    if k == Kind::Function {
        used[depth] = 0;
        let body = normal_test(calls, &t[1..], used, depth + 1)?;
        return Some(1 + body);
    }
    if !is_value_kind(k) {
        return None;
    }
    let mut at = 1;
    for _ in 0..part_count(calls.words(), w) {
        at += normal_value_test(calls, &t[at..], used, depth)?;
    }
    Some(at)
}

// whether the part at the front is in normal form: if so, where it ends
#[cycle(normal_test_normal_value_test)]
fn normal_test(calls: &Calls, t: &[u64], used: &mut [u64], depth: usize) -> Option<usize>
    requires { Starts calls.now t.now × Space 1 used.old depth (length t.now) }
    ensures { TestsNormal is_normal_form calls.now t.now depth used.old used.new result }
{
    let w = t[0];
    let k = Kind::of(w);
    if is_value_kind(k) {
        return normal_value_test(calls, t, used, depth);
    }
    let mut at = 1;
    for j in 0..part_count(calls.words(), w) {
        if !admits(role_of(k, j), Kind::of(t[at])) {
            return None;
        }
        used[depth] = 0;
        let part = normal_test(calls, &t[at..], used, depth + binders(kind(w), j))?;
        if !keeps(calls, k, j, t[1], used[depth]) {
            return None;
        }
        at += part;
    }
    Some(at)
}

// whether the term at the front is in normal form
pub fn is_normal_form(calls: &[u64], t: &[u64]) -> bool
    requires { Starts calls.now t.now × (length t.now ≤ 8192) }
    ensures { Decides calls.now t.now result }
{
    let mut used: [u64; OTHER_LIMIT] = [0; OTHER_LIMIT];
    normal_test(&Calls::new(calls), t, &mut used, 0).is_some()
}
