//! What a run produces.
ghost use Rattle.std.specs.Prelude.{◌≡◌, ◌++◌, List, ℕ, IfOk};
ghost use Rattle.cops_audit.specs.declared.verdict.Verdict.{Verdict};
ghost use Rattle.cops_report.specs.Reported.{IsReportOf};
ghost use Rattle.cops_trace.specs.Text.{IsTrace, sessions_of};

use cops_report::report_of;
use cops_trace::Trace;
use cops_types::Memory;
use std::alloc::Global;

/// What a run produces: the trace, and the text of its lines followed by the report.
#[derive(Drop)]
pub(crate) struct Left {
    pub(crate) trace: Trace,
    pub(crate) text: Vec<u8>,
}

/// What a run with these lines produces: the report on what its clients saw is appended to them.
pub(crate) fn reported_left(alloc: Global, lines: Vec<u8>, trace: Trace) -> Result<Left, Memory>
    ensures trace { IfOk result (λ left. (left.trace ≡ trace) × IsTrace trace) }
    ensures text { IfOk result (λ left. (verdict : Verdict) × (report : List ℕ) × IsReportOf (sessions_of trace) verdict report × (left.text.items ≡ lines.items ++ report)) }
{
    let mut text = lines;
    text.extend_from_slice(&report_of(alloc, trace.history())?)?;
    Ok(Left { trace, text })
}
