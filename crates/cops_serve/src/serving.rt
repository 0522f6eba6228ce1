//! Serving a scenario's cluster, from the scenario's text to the report.
ghost use Rattle.std.specs.Prelude.{◌≡◌, ◌⊎◌, ◌<◌, ◌+◌, ◌^◌, ◌++◌, List, ℕ, true, false, Ok, IfOk, IfSome, OnOk};
ghost use Rattle.std.specs.Global.{Vec};
ghost use Rattle.std.specs.Io.KnownBytes.{Appends};
ghost use Rattle.cops_types.specs.Counted.{failures, inner};
ghost use Rattle.cops_trace.specs.Text.{text};
ghost use Rattle.cops_command.specs.Status.{number};
ghost use Rattle.cops_command.specs.declared.status.Status.TheVariants.{Accepted, Failed, Faulty};
ghost use Rattle.cops_net.specs.Listening.{AreSessions, AreServed};
ghost use Rattle.cops_net.specs.declared.reply.Call.{Call};
ghost use Rattle.cops_serve.specs.declared.ending.Finished.{Finished as AFinished};
ghost use Rattle.cops_serve.specs.declared.front_end.FrontEnd.{FrontEnd as AFrontEnd};
ghost use Rattle.cops_serve.specs.FrontEnd.{Ends};
ghost use Rattle.cops_serve.specs.Opening.{IsOpened};
ghost use Rattle.cops_serve.specs.Serving.{EndsAs, EndsTraced, IsServedAs};

use crate::ending::Finished;
use crate::fault::ServeFault;
use crate::front_end::FrontEnd;
use crate::notes::{announce, note_unrun};
use cops_command::{Status, failed, print};
use cops_net::{NetFault, Terms, bind, serve_connections};
use cops_scenario::{Scenario, read_scenario};
use cops_trace::{Trace, WriteFault, write_trace};
use cops_types::{Counted, Memory};
use std::alloc::Global;
use std::io::{Read, Write};
use std::net::{Net, TcpListener, TcpStream};
use std::sync::Wait;
use std::time::Duration;

/// Where and how sessions are served.
#[derive(Clone, Copy, Debug)]
pub struct Door {
    /// The port of 127.0.0.1, 1 to 65,535.
    pub port: u16,
    /// The number of sessions, 1 to 65,535.
    pub sessions: u16,
    /// The number of seconds that a client may be idle, 1 to 65,535, if that is limited.
    pub idle: Option<u16>,
    /// Whether a line says that the port is bound. Then a connection that is closed before it sends a byte is no
    /// session.
    pub is_announced: bool,
    /// Whether the trace of what the clients saw is written.
    pub keeps_trace: bool,
}

/// Reads a scenario, serves `door.sessions` sessions of clients of its cluster on a port of 127.0.0.1, one after the
/// other, writes the trace of what the clients saw to `made`, if `door` says so, and then prints the report of it. A
/// client that is idle for `door.idle` seconds, if that is given, is dropped: only its session ends, and it counts as
/// served. Neither the scripts nor the events of the scenario are run, which a line on `errors` says if it has some.
///
/// Returns the exit status: 0 for a report, which is of an accepted history; 2 for a faulty scenario, which a line on
/// `out` names; and 4 where a read or a write failed, the port could not be bound, no connection could be accepted, or
/// the nodes' logs are not tied to what was recorded, which a line on `errors` names. Returns `Memory` when memory runs
/// out.
pub fn serve_stream<R, I, T, W, E>(
    rt: &R,
    alloc: Global,
    reader: &mut Counted<I>,
    door: Door,
    made: &mut Counted<T>,
    out: &mut Counted<W>,
    errors: &mut Counted<E>,
) -> Result<u8, Memory>
where
    R: Net<Listener = TcpListener, Stream = TcpStream> + Wait,
    I: Read,
    T: Write,
    W: Write,
    E: Write,
    // The status follows from the reader's bytes, from `door.sessions` sessions and from the text that was printed,
    // unless something failed.
    ensures ended { IfOk result (λ status. (status ≡ number Failed) ⊎ IfSome (I.remaining (inner reader.old)) (λ bytes.
        EndsAs bytes door.sessions status (W.contents (inner out.old)) (W.contents (inner out.new)))) }

    // Where the trace is kept, its text was written, and the report that was printed is its own. Where it is not kept, or
    // the scenario is faulty, nothing was written.
    ensures traced { door.keeps_trace ≡ true → result ≡ Ok (number Accepted) → IfSome (I.remaining (inner reader.old)) (λ bytes.
        EndsTraced bytes door.sessions (T.contents (inner made.old)) (T.contents (inner made.new)) (W.contents (inner out.old)) (W.contents (inner out.new))) }
    ensures untouched { door.keeps_trace ≡ false → made.new ≡ made.old }
    ensures faulty { result ≡ Ok (number Faulty) → made.new ≡ made.old }
    ensures heard { (result ≡ Ok (number Failed)) ⊎ ((failures reader.new ≡ failures reader.old) × (failures out.new ≡ failures out.old)) }
{
    let scenario = match read_scenario(alloc, reader, out, errors)? {
        Ok(scenario) => scenario,
        Err(status) => return Ok(status),
    };
    let served = served(rt, alloc, &scenario, door, errors);
    let report = traced(alloc, served, door.keeps_trace, made);
    printed(alloc, report, out, errors)
}

/// Prints a report, or why there is none, and returns the exit status.
fn printed<W: Write, E: Write>(
    alloc: Global,
    report: Result<Vec<u8>, ServeFault>,
    out: &mut Counted<W>,
    errors: &mut Counted<E>,
) -> Result<u8, Memory>
    ensures status { IfOk result (λ status. (status ≡ number Accepted) ⊎ (status ≡ number Failed)) }
    ensures printed { IfOk result (λ status. (status ≡ number Failed) ⊎ ((text : Vec ℕ) × (report ≡ Ok text)
        × Appends (W.contents (inner out.old)) (W.contents (inner out.new)) text.items)) }
    ensures heard { (result ≡ Ok (number Failed)) ⊎ (failures out.new ≡ failures out.old) }
{
    match report {
        Ok(report) => Ok(print(&report, Status::Accepted, out, errors)),
        Err(ServeFault::Memory) => Err(Memory),
        Err(fault) => unserved(alloc, fault, errors),
    }
}

/// Prints why there is no report, and returns the exit status.
fn unserved<E: Write>(
    alloc: Global,
    fault: ServeFault,
    errors: &mut Counted<E>,
) -> Result<u8, Memory>
    ensures { IfOk result (λ status. status ≡ number Failed) }
{
    let line = format!(in alloc; "failed: {fault}\n")?;
    Ok(failed(errors, line.as_bytes()))
}

/// Writes the trace of what was served, if it is kept, and returns the report.
fn traced<T: Write>(
    alloc: Global,
    served: Result<Finished, ServeFault>,
    keeps_trace: bool,
    made: &mut Counted<T>,
) -> Result<Vec<u8>, ServeFault>
    ensures report { IfOk result (λ report. (finished : AFinished) × (served ≡ Ok finished) × (report ≡ finished.report)
        × (keeps_trace ≡ true → Appends (T.contents (inner made.old)) (T.contents (inner made.new)) (text finished.trace))) }
    ensures untouched { keeps_trace ≡ false → made.new ≡ made.old }
{
    let Finished { trace, report } = served?;
    if keeps_trace {
        write_whole(alloc, &trace, made)?;
    }
    Ok(report)
}

/// Writes a trace, and flushes its writer. Returns `Memory` when memory runs out, where nothing is written, and
/// `WriteFailed` where a write or the flush failed.
fn write_whole<T: Write>(
    alloc: Global,
    trace: &Trace,
    made: &mut Counted<T>,
) -> Result<(), ServeFault>
    ensures { OnOk result (Appends (T.contents (inner made.old)) (T.contents (inner made.new)) (text trace.now)) }
{
    match write_trace(alloc, made, trace) {
        Ok(()) => {}
        Err(WriteFault::Memory) => return Err(ServeFault::Memory),
        Err(WriteFault::WriteFailed { .. }) => return Err(ServeFault::WriteFailed),
    }
    match made.flush() {
        Ok(()) => Ok(()),
        Err(_) => Err(ServeFault::WriteFailed),
    }
}

/// Serves the sessions, and returns the trace of what the clients saw, and its report.
fn served<R: Net<Listener = TcpListener, Stream = TcpStream> + Wait, E: Write>(
    rt: &R,
    alloc: Global,
    scenario: &Scenario,
    door: Door,
    errors: &mut Counted<E>,
) -> Result<Finished, ServeFault>
    ensures { IfOk result (λ finished. IsServedAs door.sessions scenario.now finished.trace finished.report.items) }
{
    note_unrun(scenario, errors);
    let front_end = attended(rt, alloc, scenario, door, errors)?;
    front_end.finish(scenario)
}

/// A front end for a scenario's cluster, after all sessions were served.
fn attended<R: Net<Listener = TcpListener, Stream = TcpStream> + Wait, E: Write>(
    rt: &R,
    alloc: Global,
    scenario: &Scenario,
    door: Door,
    errors: &mut Counted<E>,
) -> Result<FrontEnd, ServeFault>
    ensures calls { IfOk result (λ f. AreSessions scenario.now.format door.sessions f.calls.items) }
    ensures served { IfOk result (λ f. (opened : AFrontEnd) × IsOpened scenario.now opened
        × AreServed scenario.now.format (λ (g : AFrontEnd). g.calls.items) Ends door.sessions opened f) }
    ensures count { IfOk result (λ f. f.ended ≡ door.sessions) }
{
    let Ok(mut front_end) = FrontEnd::open(alloc, scenario) else {
        return Err(ServeFault::Memory);
    };
    attend(rt, alloc, door, &mut front_end, errors)?;
    Ok(front_end)
}

/// Binds the port, says so if that is wanted, and serves the sessions.
fn attend<R: Net<Listener = TcpListener, Stream = TcpStream> + Wait, E: Write>(
    rt: &R,
    alloc: Global,
    door: Door,
    front_end: &mut FrontEnd,
    errors: &mut Counted<E>,
) -> Result<(), ServeFault>
    ensures calls { IfOk result (λ _. (gained : List Call)
        × (front_end.new.calls.items ≡ front_end.old.calls.items ++ gained)
        × AreSessions front_end.old.cluster.format door.sessions gained) }
    ensures served { IfOk result (λ _.
        AreServed front_end.old.cluster.format (λ (f : AFrontEnd). f.calls.items) Ends door.sessions front_end.old front_end.new) }
    ensures count { IfOk result (λ _.
        front_end.old.ended + door.sessions < 2 ^ 64 → front_end.new.ended ≡ front_end.old.ended + door.sessions) }
{
    let Ok(listener) = bind(rt, door.port) else {
        return Err(ServeFault::BindFailed);
    };
    if door.is_announced && announce(alloc, door.port, errors).is_err() {
        return Err(ServeFault::Memory);
    }
    match serve_connections(rt, alloc, &listener, front_end, terms(door)) {
        Ok(()) => Ok(()),
        Err(NetFault::AcceptFailed) => Err(ServeFault::AcceptFailed),
        Err(NetFault::Memory) => Err(ServeFault::Memory),
        Err(_) => unreachable!(),
    }
}

/// The terms on which connections are served.
fn terms(door: Door) -> Terms
    ensures { result.sessions ≡ door.sessions }
{
    let idle = door
        .idle
        .map(|seconds| Duration::from_secs(u64::from(seconds)));
    Terms {
        sessions: door.sessions,
        idle,
        skips_silent: door.is_announced,
    }
}
