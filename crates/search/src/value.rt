// Whether a part is a value, and where it ends.
ghost use Rattle.std.specs.Prelude.{◌≡◌, ◌≤◌, length};
ghost use Rattle.words.specs.Fronts.{Starts};
ghost use Rattle.words.specs.KindCodes.{code};
ghost use Rattle.reduction.specs.FitByKinds.{value_kind};
ghost use Rattle.search.specs.ValueTest.{TestsValue};

use words::ends::part_size;
use words::fields::kind;
use words::kinds::Kind;
use words::shape::{FUNCTION, shape_of, value_parts};

// the kinds of values: the variable, and those that carry their type (function, pair, left and right injection, unit); the shape of a
// kind tells which do
#[tactic(auto, unfolding(reduction::specs::FitByKinds::value_kind))]
pub fn value_kind(k: u64) -> bool
    ensures { result ≡ value_kind k }
{
    k == 0 || shape_of(k).ty
}

// the same by a kind's name
#[tactic(auto, unfolding(reduction::specs::FitByKinds::value_kind))]
pub fn is_value_kind(kind: Kind) -> bool
    ensures { result ≡ value_kind (code kind) }
{
    value_kind(kind as u64)
}

// where the part at the front ends, if it is a value: word by word, as long as they can be those of a value;
// a function is one whatever its body, any other value is one if its parts are
pub fn value_test(calls: &[u64], t: &[u64]) -> Option<usize>
    requires { Starts calls.now t.now × (length t.now ≤ 8192) }
    ensures { TestsValue calls.now t.now result }
{
    let counts = value_parts();
    // kept: counted by hand, since a function is stepped over whole, and the loop ends when nothing is owed
    let mut owed: usize = 1;
    let mut at: usize = 0;
    while 0 < owed {
        let n = usize::from(counts[kind(t[at]) as usize]);
        if n < FUNCTION {
            owed = owed - 1 + n;
            at += 1;
        } else if n == FUNCTION {
            at += part_size(calls, &t[at..]);
            owed -= 1;
        } else {
            return None;
        }
    }
    Some(at)
}
