// The fields of type, call and term words.
ghost use Rattle.std.specs.Prelude.{◌≡◌, ◌≤◌};
ghost use Rattle.syntax.specs.Words.{kind_of, number_of, type_of, count_of, acts_of, arity_of, result_of};
ghost use Rattle.words.specs.Shapes.{argument_of};

// the kind of a type word or a term word
pub fn kind(w: u64) -> u64
    ensures { result ≡ kind_of w }
{
    w >> 60
}

// a term word's number; a type word's left part
pub fn number(w: u64) -> u64
    ensures { result ≡ number_of w }
{
    (w >> 30) % (1 << 30)
}

// a term word's type; a type word's right part
pub fn ty(w: u64) -> u64
    ensures { result ≡ type_of w }
{
    w % (1 << 30)
}

// a call word's count: the number of its arguments, and 8 more if the call acts
pub fn count(w: u64) -> u64
    ensures { result ≡ count_of w }
{
    w >> 60
}

// whether a call word's call acts
pub fn acts(w: u64) -> bool
    ensures { result ≡ acts_of w }
{
    8 <= count(w)
}

// how many arguments a call word's call takes: its count, less 8 if it acts
pub fn arguments(w: u64) -> u64
    ensures { (result ≡ arity_of w) × (result ≤ 7) }
{
    count(w) % 8
}

// a call word's result type
pub fn result(w: u64) -> u64
    ensures { result ≡ result_of w }
{
    (w >> 45) % (1 << 15)
}

// a call word's argument type at a place, 0 past the third
#[tactic(auto, unfolding(crate::specs::Shapes::argument_of))]
pub fn argument(w: u64, i: usize) -> u64
    ensures { result ≡ argument_of w i }
{
    match i {
        0 => (w >> 30) % (1 << 15),
        1 => (w >> 15) % (1 << 15),
        2 => w % (1 << 15),
        _ => 0,
    }
}
