ghost use Rattle.std.specs.Prelude.{◌≡◌, ◌≢◌, ◌⊎◌, ℕ, Some, Ok, Err, IfErr, IfOk, IfSome, OnErr};
ghost use Rattle.std.specs.Io.KnownBytes.{Appends, Keeps};
ghost use Rattle.cops_types.specs.Failures.{Failed};
ghost use Rattle.cops_types.specs.Counted.{failures, inner};
ghost use Rattle.cops_trace.specs.Text.{text};
ghost use Rattle.cops_command.specs.Status.{number};
ghost use Rattle.cops_command.specs.declared.status.Status.TheVariants.{Accepted, Failed as EndsFailed};
ghost use Rattle.cops_clients.specs.Live.{IsHeardFor};
ghost use Rattle.cops_clients.specs.declared.fault.RunFault.{RunFault as AFault};
ghost use Rattle.cops_clients.specs.declared.fault.RunFault.TheVariants.{Memory as NoMemory};
ghost use Rattle.cops_run_command.specs.Parts.{IsRunLeft};
ghost use Rattle.cops_run_command.specs.Running.{EndsAs, IsCut};
ghost use Rattle.cops_run_command.specs.declared.leaving.Left.{Left as ALeft};

use crate::events::run_events;
use crate::leaving::Left;
use crate::scripts::{Scripted, run_scripts};
use cops_clients::RunFault;
use cops_command::{Status, failed, print};
use cops_core::Event;
use cops_scenario::{Scenario, read_scenario};
use cops_trace::{WriteFault, write_trace};
use cops_types::{Counted, Gate, Memory};
use std::alloc::Global;
use std::io::{Read, Write};
use std::sync::Wait;
use std::thread::Threads;

/// A command's status, and the writer that a trace was written to, which is returned in any case.
#[derive(Drop)]
pub struct Streamed<T: Write> {
    pub status: Result<u8, Memory>,
    pub trace: Counted<T>,
}

/// Runs a scenario: its events in a world, or the scripts of its clients on threads. Writes the trace of what the
/// clients saw, and prints a line for each event, or for each client, and then the report. The trace of scripts is
/// written while they run.
///
/// Returns the exit status: 0 for a run, whose history is accepted; 2 for a faulty scenario, which a line on `out`
/// names; and 4 where a read or a write failed, or the run on threads did, which a line on `errors` names. Where a run
/// failed, nothing was written but that line and a proper prefix of a trace's text. The status is `Memory` when memory
/// runs out.
pub fn run_stream<S, R, T, W, E, G>(
    rt: &S,
    alloc: Global,
    reader: &mut Counted<R>,
    trace: Counted<T>,
    out: &mut Counted<W>,
    errors: &mut Counted<E>,
    gate: &G,
) -> Streamed<T>
where
    S: Threads + Wait + Sync,
    R: Read,
    T: Write + Send + Drop,
    W: Write,
    E: Write,
    G: Gate,
    // The status follows from the reader's bytes and from what was written, unless something failed. It is never 1.
    ensures ended { IfOk result.status (λ status. (status ≡ number EndsFailed) ⊎ IfSome (R.remaining (inner reader.old)) (λ bytes.
        EndsAs bytes status (T.contents (inner trace)) (T.contents (inner result.trace)) (W.contents (inner out.old)) (W.contents (inner out.new)))) }

    // What failed was a reader or a writer, or a run, of whose trace a proper prefix was written, and nothing else.
    ensures failed { result.status ≡ Ok (number EndsFailed) → Failed (failures reader.old) (failures reader.new) ⊎ (Failed (failures trace) (failures result.trace)
        ⊎ (Failed (failures out.old) (failures out.new) ⊎ (IsCut (T.contents (inner trace)) (T.contents (inner result.trace)) × Keeps (W.contents (inner out.old)) (W.contents (inner out.new))))) }
    ensures heard { (result.status ≡ Ok (number EndsFailed)) ⊎ ((failures reader.new ≡ failures reader.old) × ((failures result.trace ≡ failures trace) × (failures out.new ≡ failures out.old))) }
{
    let scenario = match read_scenario(alloc, reader, out, errors) {
        Ok(Ok(scenario)) => scenario,
        Ok(Err(status)) => {
            let status = Ok(status);
            return Streamed { status, trace };
        }
        Err(Memory) => {
            let status = Err(Memory);
            return Streamed { status, trace };
        }
    };
    if let Some(events) = scenario.events() {
        let mut trace = trace;
        let status = report_events(alloc, &scenario, events, &mut trace, out, errors);
        return Streamed { status, trace };
    }
    let Scripted { ran, trace } = run_scripts(rt, alloc, scenario, gate, trace);
    let status = report_scripts(alloc, ran, out, errors);
    Streamed { status, trace }
}

/// Runs the events, writes the trace of what the clients saw, prints the lines, and returns the exit status.
fn report_events<T: Write, W: Write, E: Write>(
    alloc: Global,
    scenario: &Scenario,
    events: &[Event],
    trace: &mut Counted<T>,
    out: &mut Counted<W>,
    errors: &mut Counted<E>,
) -> Result<u8, Memory>
    requires { scenario.now.events ≡ Some events.now }
    ensures whole { IfOk result (λ status. (status ≡ number EndsFailed) ⊎ ((left : ALeft) × IsRunLeft scenario.now left × (status ≡ number Accepted)
        × Appends (T.contents (inner trace.old)) (T.contents (inner trace.new)) (text left.trace)
        × Appends (W.contents (inner out.old)) (W.contents (inner out.new)) left.text.items)) }
    ensures failed { result ≡ Ok (number EndsFailed) → Failed (failures trace.old) (failures trace.new) ⊎ Failed (failures out.old) (failures out.new) }
    ensures heard { (result ≡ Ok (number EndsFailed)) ⊎ ((failures trace.new ≡ failures trace.old) × (failures out.new ≡ failures out.old)) }
{
    match run_events(alloc, scenario, events) {
        Ok(left) => Ok(write(alloc, &left, trace, out, errors)?),
        Err(Memory) => Err(Memory),
    }
}

/// Prints the lines of a run whose trace is written, or why there is no run, and returns the exit status. Returns
/// `Memory` only where the writer of the trace did not fail.
fn report_scripts<W: Write, E: Write>(
    alloc: Global,
    ran: Result<Left, RunFault>,
    out: &mut Counted<W>,
    errors: &mut Counted<E>,
) -> Result<u8, Memory>
    ensures whole { IfOk result (λ status. (status ≡ number EndsFailed) ⊎ ((left : ALeft) × (ran ≡ Ok left) × (status ≡ number Accepted)
        × Appends (W.contents (inner out.old)) (W.contents (inner out.new)) left.text.items)) }
    ensures failed { result ≡ Ok (number EndsFailed) → Failed (failures out.old) (failures out.new)
        ⊎ ((fault : AFault) × (ran ≡ Err fault) × (fault ≢ NoMemory) × Keeps (W.contents (inner out.old)) (W.contents (inner out.new))) }
    ensures memory { OnErr result (IfErr ran (λ e. (old new : ℕ) → IsHeardFor e old new → new ≡ old)) }
    ensures heard { (result ≡ Ok (number EndsFailed)) ⊎ (failures out.new ≡ failures out.old) }
{
    let fault = match ran {
        Ok(left) => return Ok(print(&left.text, Status::Accepted, out, errors)),
        Err(fault) => fault,
    };
    match fault {
        RunFault::Memory => Err(Memory),
        RunFault::Untied { .. } => {
            let line = format!(in alloc; "failed: {fault}\n")?;
            Ok(failed(errors, line.as_bytes()))
        }
        RunFault::Held => Ok(failed(errors, b"failed: held\n")),
        RunFault::TurnLimit => Ok(failed(errors, b"failed: turn limit\n")),
        RunFault::WriteFailed { .. } => Ok(failed(errors, b"failed: write\n")),
        RunFault::NoThread => Ok(failed(errors, b"failed: no thread\n")),
    }
}

/// Writes the trace of a run, prints its lines, and returns the exit status.
fn write<T: Write, W: Write, E: Write>(
    alloc: Global,
    left: &Left,
    trace: &mut Counted<T>,
    out: &mut Counted<W>,
    errors: &mut Counted<E>,
) -> Result<u8, Memory>
    ensures whole { IfOk result (λ status. (status ≡ number EndsFailed) ⊎ ((status ≡ number Accepted)
        × Appends (T.contents (inner trace.old)) (T.contents (inner trace.new)) (text left.now.trace)
        × Appends (W.contents (inner out.old)) (W.contents (inner out.new)) left.now.text.items)) }
    ensures failed { result ≡ Ok (number EndsFailed) → Failed (failures trace.old) (failures trace.new) ⊎ Failed (failures out.old) (failures out.new) }
    ensures heard { (result ≡ Ok (number EndsFailed)) ⊎ ((failures trace.new ≡ failures trace.old) × (failures out.new ≡ failures out.old)) }
{
    match write_trace(alloc, trace, &left.trace) {
        Ok(()) => Ok(print(&left.text, Status::Accepted, out, errors)),
        Err(WriteFault::Memory) => Err(Memory),
        Err(WriteFault::WriteFailed { .. }) => Ok(failed(errors, b"failed: write\n")),
    }
}
