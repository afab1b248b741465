// Which calls of a table act.
ghost use Rattle.std.specs.Prelude.{◌≡◌};
ghost use Rattle.syntax.specs.Tables.{acts as acts_in, some_acts};

use crate::fields::acts;

// whether a call acts; none does past the table
pub fn call_acts(calls: &[u64], n: u64) -> bool
    ensures { result ≡ acts_in calls.now n }
{
    calls.get(n as usize).is_some_and(|&w| acts(w))
}

// whether some call of the table acts
pub fn some_acts(calls: &[u64]) -> bool
    ensures { result ≡ some_acts calls.now }
{
    calls.iter().any(|&w| acts(w))
}
