// The redex behind the gap rewritten in place, if the next term is not too long.
ghost use Rattle.std.specs.Prelude.{◌≤◌, length as length_of};
ghost use Rattle.step.specs.Rewrites.{Rewritable, RewritesRedex};

use crate::gap::Gap;
use binding::lower::lower_part;
use contraction::plan::{Action, Measured, measure};
use contraction::write::write;
use outcomes::Refusal;
use reduction::Rule;
use words::moves::copy;

// where the gap is then, unless the next term is longer than the capacity. A dropped let and what it binds become part of the gap, and the
// body stays where it is. Of any other rule, what the redex becomes has room in its own place and the gap before it, or the next term is
// longer than the buffer; that is known before a word is written. The words before the gap and behind the redex are not touched.
pub fn rewrite(
    rule: Rule,
    calls: &[u64],
    current: &mut [u64],
    gap: Gap,
    second: &mut [u64],
    pending: &mut [u64],
) -> Result<Gap, Refusal>
    requires { Rewritable rule calls.now current.old gap.start gap.end second.old × (8194 ≤ length_of pending.old) }
    ensures { RewritesRedex rule calls.now current.old gap.start gap.end current.new result }
{
    match measure(rule, calls, &current[gap.end..], pending) {
        Action::Lower(gone) => {
            let body = gap.end + gone;
            lower_part(calls, &mut current[body..], pending);
            Ok(Gap { end: body, ..gap })
        }
        Action::Rewrite(Measured { plan, read, wrote }) => {
            let behind = gap.end + read;
            if behind - gap.start < wrote {
                return Err(Refusal::Capacity);
            }
            write(plan, calls, &current[gap.end..], second, wrote, pending);
            let next = behind - wrote;
            copy(second, 0, wrote, current, next);
            Ok(Gap { end: next, ..gap })
        }
    }
}
