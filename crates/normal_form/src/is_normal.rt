// The public call `is_normal` (paper 01: the flat test).
ghost use Rattle.std.specs.Prelude.{◌≡◌};
ghost use Rattle.syntax.specs.Tables.{over};
ghost use Rattle.outcomes.specs.IsNormal.{tested_answer, is_normal_outcome};

use crate::normal::is_normal_form;
use checker::check::{OTHER_LIMIT, check_within};
use outcomes::Refusal;
use words::tables::Tables;

// refusals 1 to 9, or whether no rule of any phase fits the term
pub fn is_normal(
    types: &[u64],
    calls: &[u64],
    inputs: &[u64],
    term: &[u64],
) -> Result<bool, Refusal>
    ensures { tested_answer result ≡ is_normal_outcome (over types.now calls.now inputs.now) term.now }
{
    let tables = Tables {
        types,
        calls,
        inputs,
    };
    check_within(OTHER_LIMIT, &tables, term)?;
    Ok(is_normal_form(calls, term))
}
