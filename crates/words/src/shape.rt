// What a kind decides: the fields it uses, its parts, and which of them bind a variable. Every table of the kinds stands here.
ghost use Rattle.std.specs.Prelude.{◌≡◌, ◌≤◌, eqb};
ghost use Rattle.syntax.specs.Kinds.{binders_at, binds_of};
ghost use Rattle.syntax.specs.Tables.{arity as arity_of, known_arity};
ghost use Rattle.syntax.specs.Parts.{known_parts, part_count};
ghost use Rattle.syntax.specs.Values.{counts};
ghost use Rattle.words.specs.Shapes.{Shaping, Tabled, Owes, owed_by_kind, owed_by_count, value_parts, operand_count};
ghost use Rattle.words.specs.Reach.{outer_count};

use crate::fields::{arguments, count, kind, number};

// parts: how many, a call's aside; number, ty: whether these fields are used;
// binder: if it binds a variable, how many of its parts come before the binder
#[derive(Clone, Copy)]
pub struct Shape {
    pub parts: usize,
    pub number: bool,
    pub ty: bool,
    pub binder: Option<usize>,
}

// kept: the kind as a number here and in the functions below, since a match on the kind with ranges decides the fields used, the parts and
// the binders (a form that the project wants), and tables are looked up by it; elsewhere a kind has a name (kinds.rt)
pub fn shape_of(k: u64) -> Shape
    ensures { Shaping k result }
{
    let (parts, number, ty, binder) = match k {
        0..=1 => (0, true, false, None),
        2 => (1, false, true, Some(0)),
        3 => (2, false, false, None),
        4 => (2, false, false, Some(1)),
        5 => (2, false, true, None),
        6..=7 => (1, false, false, None),
        8..=9 => (1, false, true, None),
        10 => (3, false, false, Some(1)),
        11 => (0, false, true, None),
        _ => (0, false, false, None),
    };
    Shape {
        parts,
        number,
        ty,
        binder,
    }
}

// how many binders of a node its part j stands under: none or one
#[tactic(auto, unfolding(syntax::specs::Kinds::binders_at))]
pub fn binders(k: u64, j: usize) -> usize
    ensures { (result ≡ binders_at k j) × (result ≤ 1) }
{
    usize::from(shape_of(k).binder.is_some_and(|free| free <= j))
}

// how many of the n parts of a node its binder does not reach: the first ones
#[tactic(auto, unfolding(crate::specs::Reach::outer_count))]
pub fn outer_count(k: u64, n: usize) -> usize
    ensures { result ≡ outer_count k n }
{
    shape_of(k).binder.unwrap_or(n)
}

// how many of the n parts of a node are operands: those that its binder does not reach, but none of a let
#[tactic(auto, unfolding(crate::specs::Shapes::operand_count, crate::specs::Reach::outer_count))]
pub fn operand_count(k: u64, n: usize) -> usize
    ensures { result ≡ operand_count k n }
{
    if k == 4 { 0 } else { outer_count(k, n) }
}

// whether a node's last part stands under its binder: 1 or 0
pub fn last_binder(k: u64) -> u64
    ensures { (result ≡ counts (binds_of k)) × (result ≤ 1) }
{
    u64::from(shape_of(k).binder.is_some())
}

// the same of the part before it: where a binder reaches all but the first of three, it does
pub fn middle_binder(k: u64) -> u64
    ensures { (result ≡ counts (eqb k 10)) × (result ≤ 1) }
{
    let s = shape_of(k);
    u64::from(s.binder.is_some() && s.parts == 3)
}

// stands in a table for a number of parts that is not known: as many as there are words at most
// kept: a number and no Option, since a word whose number of parts is not known owes more than the words behind it, so that the loop for ends
// has two exits and no third (a rule of the project; contract of `known_parts`: `Owes`)
pub const NA: u16 = 8192;

// how many parts a node of each kind has, a call's aside: for a loop over words, where a load is faster than the shift in `part_count`
pub fn part_counts() -> [u16; 16]
    ensures { Tabled owed_by_kind result }
{
    [0, 0, 1, 2, 2, 2, 1, 1, 1, 1, 3, 0, NA, NA, NA, NA]
}

// how many arguments a call takes, by the count of its word: for the same loop
pub fn argument_counts() -> [u16; 16]
    ensures { Tabled owed_by_count result }
{
    [0, 1, 2, 3, NA, NA, NA, NA, 0, 1, 2, 3, NA, NA, NA, NA]
}

// what the table of the value test says of a function
pub const FUNCTION: usize = 4;

// for the value test, a loop over words too: how many parts a value's node of each kind has; FUNCTION; 5 if the kind is no value's
pub fn value_parts() -> [u8; 16]
    ensures { Tabled value_parts result }
{
    [0, 5, 4, 5, 5, 2, 5, 5, 1, 1, 5, 0, 5, 5, 5, 5]
}

// how many arguments a call takes, 0 past the table
pub fn arity(calls: &[u64], n: u64) -> usize
    ensures { (result ≡ arity_of calls.now n) × (result ≤ 15) }
{
    calls.get(n as usize).map_or(0, |&w| arguments(w) as usize)
}

// the same where it is known, and else `many` or more: past the table, and where the count is malformed. `arities` is `argument_counts()`.
#[tactic(auto, using(crate::proofs::PartCounts::owed_inside, crate::proofs::PartCounts::owed_past))]
pub fn known_arity(calls: &[u64], arities: &[u16; 16], n: u64, many: usize) -> usize
    requires { Tabled owed_by_count arities.now × (many ≤ 8192) }
    ensures { Owes many (known_arity calls.now n) result × (result ≤ 8192) }
{
    match calls.get(n as usize) {
        Some(&w) => usize::from(arities[count(w) as usize]),
        None => many,
    }
}

// how many parts a word's node has if that is known, and else `many` or more. The tables are `part_counts()` and `argument_counts()`.
#[tactic(auto, using(crate::proofs::PartCounts::owed_by_call, crate::proofs::PartCounts::owed_by_kind_lem))]
pub fn known_parts(
    calls: &[u64],
    counts: &[u16; 16],
    arities: &[u16; 16],
    w: u64,
    many: usize,
) -> usize
    requires { Tabled owed_by_kind counts.now × Tabled owed_by_count arities.now × (many ≤ 8192) }
    ensures { Owes many (known_parts calls.now w) result × (result ≤ 8192) }
{
    let k = kind(w);
    if k == 1 {
        known_arity(calls, arities, number(w), many)
    } else {
        usize::from(counts[k as usize])
    }
}

// how many parts a word's node has: a call's are in the calls' table, any other's in a number, a hexadecimal digit for each kind,
// the last for kind 0; that is faster than the match
#[tactic(auto, using(crate::proofs::PartCounts::of_call, crate::proofs::PartCounts::of_kind))]
pub fn part_count(calls: &[u64], w: u64) -> usize
    ensures { (result ≡ part_count calls.now w) × (result ≤ 15) }
{
    let k = kind(w);
    if k == 1 {
        return arity(calls, number(w));
    }
    let table: u64 = 0x31111222100;
    (table >> (k * 4)) as usize % 16
}
