// The public call `free_inputs`: which inputs a term reads.
ghost use Rattle.std.specs.Prelude.{◌≡◌};
ghost use Rattle.syntax.specs.Tables.{over};
ghost use Rattle.outcomes.specs.FreeInputs.{free_inputs_outcome};

use crate::marks::input_marks;
use checker::check::{OTHER_LIMIT, check_within};
use outcomes::FreeInputs;
use words::tables::Tables;

// refusals 1 to 9, or a mark for each input that some variable names, and how many are marked
pub fn free_inputs(types: &[u64], calls: &[u64], inputs: &[u64], term: &[u64]) -> FreeInputs
    ensures { result ≡ free_inputs_outcome (over types.now calls.now inputs.now) term.now }
{
    let tables = Tables {
        types,
        calls,
        inputs,
    };
    match check_within(OTHER_LIMIT, &tables, term) {
        Err(refusal) => FreeInputs {
            refusal: u32::from(refusal),
            marks: [0; 4],
            count: 0,
        },
        Ok(_) => {
            let marks = input_marks(calls, term);
            let count = marks[0].count_ones()
                + marks[1].count_ones()
                + marks[2].count_ones()
                + marks[3].count_ones();
            FreeInputs {
                refusal: 0,
                marks,
                count,
            }
        }
    }
}
