//! The functions that a program in C calls.
ghost use Rattle.std.specs.Prelude.{◌≡◌};
ghost use Rattle.cops_command.specs.Status.{number};
ghost use Rattle.cops_command.specs.declared.status.Status.TheVariants.{Accepted};
ghost use Rattle.cops_audit_commands.specs.Audit.{AuditSays};
ghost use Rattle.cops_audit_commands.specs.Convergent.{EncodesConvergent};
ghost use Rattle.cops_audit_commands.specs.SoFar.{IsSoundSoFar, SaysSoFar};
ghost use Rattle.cops_check.specs.Check.{CheckSaysJson, DescribesConvergent};
ghost use Rattle.cops_c_interface.specs.Left.{Leaves};

use crate::leaving::leave;
use cops_audit_commands::{audit_bytes, audit_bytes_so_far};
use cops_check::check_bytes;
use std::alloc::Global;

/// Judges the bytes of a trace. The text is the report of `cops audit`, or the line of the bytes' first fault: it is
/// written to the beginning of `output`, and its length to `written`.
///
/// The status is 0 where the trace is accepted, 1 where it is refused, 2 where the bytes are no trace's, 5 where the
/// text is longer than `output`, and 3 where memory runs out, with 0 in `written`. At 3 and 5 `output` stays as it was.
/// What is behind the text always stays.
#[unsafe(no_mangle)]
pub extern "C" fn cops_audit(
    alloc: Global,
    input: &[u8],
    output: &mut [u8],
    written: &mut usize,
) -> u8
    ensures left { Leaves (AuditSays input.now) output.old output.new written.new result }

    // Where it accepts, the bytes decode to one history, and it is causally convergent.
    ensures accepted { result ≡ number Accepted → EncodesConvergent input.now }
{
    leave(audit_bytes(alloc, input), output, written)
}

/// Judges the bytes of a trace, which may be cut, as those of a run that goes on. Where they are not cut it does what
/// `cops_audit` does. Where they are, the text says at which offset, and what is found so far in the whole records
/// before it; the status is 1 if that is a fault which no further record removes, and otherwise 0.
#[unsafe(no_mangle)]
pub extern "C" fn cops_audit_so_far(
    alloc: Global,
    input: &[u8],
    output: &mut [u8],
    written: &mut usize,
) -> u8
    ensures left { Leaves (SaysSoFar input.now) output.old output.new written.new result }

    // Where it accepts, the bytes decode to one history, which is causally convergent, or they are cut after records
    // without a lasting fault.
    ensures accepted { result ≡ number Accepted → IsSoundSoFar input.now }
{
    leave(audit_bytes_so_far(alloc, input), output, written)
}

/// Judges JSON Lines, with their versions by their ranks or as they stand. The text is the JSON object of
/// `cops check --json`: its verdict, and the explanations of the first faults. The status is as that of `cops_audit`,
/// with 2 where a line is wrong.
#[unsafe(no_mangle)]
pub extern "C" fn cops_check_lines(
    alloc: Global,
    input: &[u8],
    is_ranked: bool,
    output: &mut [u8],
    written: &mut usize,
) -> u8
    ensures left { Leaves (CheckSaysJson is_ranked input.now) output.old output.new written.new result }

    // Where it accepts, the lines describe one history, and it is causally convergent.
    ensures accepted { result ≡ number Accepted → DescribesConvergent is_ranked input.now }
{
    leave(check_bytes(alloc, input, is_ranked), output, written)
}
