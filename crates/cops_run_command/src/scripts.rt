//! Running scripted clients, on threads.
ghost use Rattle.std.specs.Prelude.{◌≡◌, ◌≢◌, ◌++◌, ℕ, List, None, IfErr, IfOk, string_bytes};
ghost use Rattle.std.specs.Io.KnownBytes.{Appends};
ghost use Rattle.cops_types.specs.Counted.{failures, inner};
ghost use Rattle.cops_audit.specs.declared.verdict.Verdict.{Verdict};
ghost use Rattle.cops_report.specs.Reported.{IsReportOf};
ghost use Rattle.cops_trace.specs.Text.{IsTrace, sessions_of, text};
ghost use Rattle.cops_clients.specs.Live.{IsCutFor, IsHeardFor};
ghost use Rattle.cops_run_command.specs.Lines.{client_line, client_lines};
ghost use Rattle.cops_run_command.specs.Parts.{IsRunLeft};

use crate::leaving::{Left, reported_left};
use cops_clients::{Live, Run, RunFault, run_live};
use cops_scenario::Scenario;
use cops_tie::ClientOutcome;
use cops_types::{Counted, Gate, Memory};
use std::alloc::{AllocError, Global};
use std::io::Write;
use std::sync::Wait;
use std::thread::Threads;

/// What a run of scripts produced, or why there is no run, and the writer that its trace was written to.
#[derive(Drop)]
pub(crate) struct Scripted<T: Write> {
    pub(crate) ran: Result<Left, RunFault>,
    pub(crate) trace: Counted<T>,
}

/// Runs the scenario's scripts, and writes their trace while they run. Prints one line for each client.
pub(crate) fn run_scripts<R: Threads + Wait + Sync, G: Gate, T: Write + Send + Drop>(
    rt: &R,
    alloc: Global,
    scenario: Scenario,
    gate: &G,
    trace: Counted<T>,
) -> Scripted<T>
    requires { scenario.events ≡ None }
    ensures left { IfOk result.ran (IsRunLeft scenario) }
    ensures written { IfOk result.ran (λ left. Appends (T.contents (inner trace)) (T.contents (inner result.trace)) (text left.trace)) }
    ensures heard { IfOk result.ran (λ _. failures result.trace ≡ failures trace) }
    ensures cut { IfErr result.ran (λ e. e ≢ RunFault.Memory → IsCutFor e (T.contents (inner trace)) (T.contents (inner result.trace))) }
    ensures failed { IfErr result.ran (λ e. IsHeardFor e (failures trace) (failures result.trace)) }
{
    let Live { ran, writer } = run_live(rt, alloc, scenario, gate, trace);
    match ran {
        Ok(run) => {
            let ran = left_of(alloc, run);
            Scripted { ran, trace: writer }
        }
        Err(fault) => {
            let ran = Err(fault);
            Scripted { ran, trace: writer }
        }
    }
}

/// What a run produces. Returns `Memory` when memory runs out.
fn left_of(alloc: Global, run: Run) -> Result<Left, RunFault>
    ensures trace { IfOk result (λ left. (left.trace ≡ run.trace) × IsTrace run.trace) }
    ensures text { IfOk result (λ left. (verdict : Verdict) × (report : List ℕ) × IsReportOf (sessions_of run.trace) verdict report × (left.text.items ≡ client_lines run.outcomes.items ++ report)) }
    ensures memory { IfErr result (λ e. e ≡ RunFault.Memory) }
{
    let Run {
        trace,
        outcomes,
        ..
    } = run;
    let Ok(lines) = lines(alloc, &outcomes) else {
        return Err(RunFault::Memory);
    };
    match reported_left(alloc, lines, trace) {
        Ok(left) => Ok(left),
        Err(Memory) => Err(RunFault::Memory),
    }
}

/// One line for each client.
fn lines(alloc: Global, outcomes: &[ClientOutcome]) -> Result<Vec<u8>, Memory>
    ensures { IfOk result (λ text. text.items ≡ client_lines outcomes.now) }
{
    let mut text = Vec::new(alloc);
    for n in 0..outcomes.len() {
        text.extend_from_slice(line(alloc, n, &outcomes[n])?.as_bytes())?;
    }
    Ok(text)
}

fn line(alloc: Global, n: usize, outcome: &ClientOutcome) -> Result<String, AllocError>
    ensures { IfOk result (λ s. string_bytes s ≡ client_line n outcome.now) }
{
    match *outcome {
        ClientOutcome::Done => format!(in alloc; "client {n} done\n"),
        ClientOutcome::Stopped(refusal) => {
            let code = refusal.code();
            format!(in alloc; "client {n} stopped {code}\n")
        }
    }
}
