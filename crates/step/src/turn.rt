// One turn of the reduction: search, the three limits, and the step in place.
ghost use Rattle.std.specs.Prelude.{◌≤◌, length as length_of};
ghost use Rattle.step.specs.Turns.{Ready, Turns};

use crate::counts::ceiling_met;
use crate::gap::{Gap, seek};
use crate::rewrite::rewrite;
use outcomes::Refusal;
use reduction::{Phase, Rule};
use search::find::find;
use search::next_from::next_from;
use words::calls::Calls;

// a step taken: by which rule, and where the gap is after it
#[derive(Clone, Copy)]
pub struct Step {
    pub rule: Rule,
    pub gap: Gap,
}

// the step, or none if the phase is over. The search begins behind the gap; after a step the gap is where the search goes on.
// The budget is checked before the ceiling, and that before the capacity.
#[tactic(auto, using(crate::proofs::TurnIsStep::found_met))]
pub fn take_turn(
    phase: Phase,
    calls: &Calls,
    current: &mut [u64],
    gap: Gap,
    left: u32,
    counts: [u32; 10],
    ceilings: [u32; 10],
    second: &mut [u64],
    pending: &mut [u64],
) -> Result<Option<Step>, Refusal>
    requires { Ready phase calls.now current.old gap.start gap.end second.old × (8194 ≤ length_of pending.old) }
    ensures { Turns phase calls.now current.old gap.start gap.end left counts ceilings current.new result }
{
    let Some(redex) = find(phase, calls, &current[gap.end..], second) else {
        return Ok(None);
    };
    let rule = redex.rule;
    // both limits are asked before either is tested, so the order is that of the two tests
    let spent = left == 0;
    let met = ceiling_met(ceilings, rule, counts);
    if spent {
        return Err(Refusal::Budget);
    }
    if met {
        return Err(Refusal::Ceiling);
    }
    let place = gap.start + redex.place;
    let at_redex = seek(current, gap, place);
    let rewritten = rewrite(rule, calls.words(), current, at_redex, second, pending)?;
    let from = next_from(phase, place);
    let gap = seek(current, rewritten, from);
    Ok(Some(Step { rule, gap }))
}
