// The public calls `respond`, `normalize` and `free_inputs`, and settings without ceilings, for programs in C and Rust.
#![tactic(auto)]

ghost use Rattle.std.specs.Prelude.{◌≡◌};
ghost use Rattle.syntax.specs.Tables.{over};
ghost use Rattle.reduction.specs.Reduction.{no_ceilings};
ghost use Rattle.outcomes.specs.Contract.{Normalizes};
ghost use Rattle.outcomes.specs.FreeInputs.{free_inputs_outcome};
ghost use Rattle.outcomes.specs.Respond.{respond_outcome};

use free_inputs::free_inputs::free_inputs;
use normalizer::normalize::normalize;
use normalizer::settings::no_ceilings;
use outcomes::{Answer, FreeInputs};
use reduction::Settings;
use responder::respond;

// `responder::respond`
#[unsafe(no_mangle)]
pub extern "C" fn flatten_respond(bytes: &[u8], text: &mut [u8]) -> usize
    ensures { record { length = result; buffer = text.new } ≡ respond_outcome bytes.now text.old }
{
    respond(bytes, text)
}

// `normalizer::settings::no_ceilings`
#[unsafe(no_mangle)]
pub extern "C" fn flatten_no_ceilings(budget: u32) -> Settings
    ensures { result ≡ no_ceilings budget }
{
    no_ceilings(budget)
}

// `normalizer::normalize`
#[unsafe(no_mangle)]
pub extern "C" fn flatten_normalize(
    types: &[u64],
    calls: &[u64],
    inputs: &[u64],
    term: &[u64],
    settings: Settings,
    output: &mut [u64],
    first: &mut [u64],
    second: &mut [u64],
) -> Answer
    ensures { Normalizes settings (over types.now calls.now inputs.now) term.now
        (record { output = output.old; scratch₁ = first.old; scratch₂ = second.old }) result
        (record { output = output.new; scratch₁ = first.new; scratch₂ = second.new }) }
{
    normalize(types, calls, inputs, term, settings, output, first, second)
}

// `free_inputs::free_inputs`
#[unsafe(no_mangle)]
pub extern "C" fn flatten_free_inputs(
    types: &[u64],
    calls: &[u64],
    inputs: &[u64],
    term: &[u64],
) -> FreeInputs
    ensures { result ≡ free_inputs_outcome (over types.now calls.now inputs.now) term.now }
{
    free_inputs(types, calls, inputs, term)
}
