// The public call `normalize`.
ghost use Rattle.std.specs.Prelude.{◌≡◌, length as length_of};
ghost use Rattle.syntax.specs.Tables.{over};
ghost use Rattle.outcomes.specs.Refusal.{number_of};
ghost use Rattle.outcomes.specs.Contract.{Normalizes};
ghost use Rattle.normalizer.specs.Answers.{FillsNormalized, Settleable, Settles};

use crate::reduce::{Reduced, reduce};
use checker::check::{NORMALIZE_LIMIT, check_within};
use outcomes::{Answer, Refusal};
use reduction::Settings;
use words::moves::{clear, copy};
use words::tables::Tables;

// a refusal, with the counts of the steps taken
pub fn refused(refusal: Refusal, counts: [u32; 10]) -> Answer
    ensures { result ≡ record { refusal = number_of refusal; ty = 0; length = 0; counts = counts } }
{
    Answer {
        refusal: u32::from(refusal),
        ty: 0,
        length: 0,
        counts,
    }
}

// reduces a typed term in the scratch buffers, whose length is the capacity, and writes its normal form to the output
fn settle(
    calls: &[u64],
    term: &[u64],
    ty: u64,
    settings: Settings,
    output: &mut [u64],
    first: &mut [u64],
    second: &mut [u64],
) -> Answer
    requires { Settleable calls.now term.now output.old first.old second.old }
    ensures { Settles calls.now term.now ty settings (length_of first.old) output.old result
        output.new }
{
    let begin = first.len() - term.len();
    copy(term, 0, term.len(), first, begin);
    let Reduced { begin, counts } = reduce(calls, first, begin, settings, second);
    match begin {
        Err(refusal) => refused(refusal, counts),
        Ok(begin) => {
            let length = first.len() - begin;
            copy(first, begin, length, output, 0);
            Answer {
                refusal: 0,
                ty,
                length,
                counts,
            }
        }
    }
}

// the checks and the reduction; the normal form is written to the output
fn run(
    tables: &Tables,
    term: &[u64],
    settings: Settings,
    output: &mut [u64],
    first: &mut [u64],
    second: &mut [u64],
) -> Answer
    ensures { FillsNormalized settings tables.now term.now
        (record { output = output.old; scratch₁ = first.old; scratch₂ = second.old }) result output.new }
{
    let ty = match check_within(NORMALIZE_LIMIT, tables, term) {
        Ok(ty) => ty,
        Err(refusal) => return refused(refusal, [0; 10]),
    };
    let capacity = output.len().min(first.len()).min(second.len()).min(8192);
    if capacity < term.len() {
        return refused(Refusal::Capacity, [0; 10]);
    }
    settle(
        tables.calls,
        term,
        ty,
        settings,
        output,
        &mut first[..capacity],
        &mut second[..capacity],
    )
}

// normalizes a term: refused with a number, or its type, its normal form in the output's leading words, and the counts of the rules;
// the scratch buffers are zero after every call
pub fn normalize(
    types: &[u64],
    calls: &[u64],
    inputs: &[u64],
    term: &[u64],
    settings: Settings,
    output: &mut [u64],
    first: &mut [u64],
    second: &mut [u64],
) -> Answer
    ensures { Normalizes settings (over types.now calls.now inputs.now) term.now
        (record { output = output.old; scratch₁ = first.old; scratch₂ = second.old }) result
        (record { output = output.new; scratch₁ = first.new; scratch₂ = second.new }) }
{
    let tables = Tables {
        types,
        calls,
        inputs,
    };
    let answer = run(&tables, term, settings, output, first, second);
    clear(first);
    clear(second);
    answer
}
