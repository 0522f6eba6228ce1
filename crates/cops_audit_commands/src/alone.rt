//! The audit of a trace's bytes by one worker, an auditor that takes them as they are read.
ghost use Rattle.std.specs.Prelude.{◌≡◌, ◌⊎◌, IfErr, IfOk, IsErrOf};
ghost use Rattle.cops_trace.specs.Text.{ATrace};
ghost use Rattle.cops_batch.specs.Pieces.{MayHoldPiece};
ghost use Rattle.cops_audit_commands.specs.Audit.{IsReported};
ghost use Rattle.cops_audit_commands.specs.Fed.{WasFed};

use crate::audit::{Answer, StreamFault, answer_of};
use crate::fed::Fed;
use cops_report::report_judged;
use cops_types::{Gate, Memory, Point};
use std::alloc::Global;
use std::sync::Wait;

/// The answer for a whole trace, with its report, by an auditor that took it.
pub(crate) fn whole(alloc: Global, fed: Fed) -> Result<(Answer, Vec<u8>), Memory>
    ensures { (t : ATrace) → WasFed fed t → IfOk result (λ reported. IsReported t reported.0 reported.1.items) }
{
    let judged = fed.into_online().close()?;
    let text = report_judged(alloc, &judged)?;
    Ok((answer_of(judged.verdict()), text))
}

/// The answer of a single worker whose piece is the whole history. It passes the gate before and after its work, even
/// where memory ran out. The errors are `Held`, where the gate held it, and otherwise `Memory`.
pub(crate) fn judged_alone<T: Wait, G: Gate>(
    rt: &T,
    alloc: Global,
    fed: Fed,
    gate: &G,
) -> Result<(Answer, Vec<u8>), StreamFault>
    ensures reported { (t : ATrace) → WasFed fed t → IfOk result (λ reported. IsReported t reported.0 reported.1.items) }
    ensures held { IsErrOf result StreamFault.Held → MayHoldPiece (G.may_hold gate.now) 0 }
    ensures faults { IfErr result (λ e. (e ≡ StreamFault.Memory) ⊎ (e ≡ StreamFault.Held)) }
{
    if gate.pass(rt, Point::PieceStart(0)).is_err() {
        return Err(StreamFault::Held);
    }
    let reported = whole(alloc, fed);
    if gate.pass(rt, Point::PieceDone(0)).is_err() {
        drop(reported);
        return Err(StreamFault::Held);
    }
    match reported {
        Ok(reported) => Ok(reported),
        Err(Memory) => Err(StreamFault::Memory),
    }
}
