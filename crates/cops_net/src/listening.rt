//! Serving sessions over connections, one after the other.
ghost use Rattle.std.specs.Prelude.{◌≡◌, ◌≢◌, ◌<◌, ◌+◌, ◌^◌, ◌++◌, ◌↔◌, List, ℕ, Result, Err, IfErr, IsErr, IsErrOf, OnErr};
ghost use Rattle.std.specs.Io.KnownBytes.{Appends, Consumes, IsAtEnd};
ghost use Rattle.cops_types.specs.Counted.{failures, inner};
ghost use Rattle.cops_net.specs.declared.serving.Served.{Served};
ghost use Rattle.cops_net.specs.declared.fault.NetFault.{NetFault as Fault};
ghost use Rattle.cops_net.specs.declared.reply.Call.{Call};
ghost use Rattle.cops_net.specs.Listening.{IsSession, AreSessions, AreServed, IsCount};
ghost use Rattle.cops_net.specs.Sessions.{Serves};

use crate::fault::NetFault;
use crate::parting::part_from;
use crate::serving::serve_session;
use crate::session::Session;
use cops_types::{Counted, Memory};
use std::alloc::Global;
use std::io;
use std::io::{Read, Write};
use std::net::{Ipv4Addr, Net, TcpListener, TcpStream};
use std::sync::Wait;
use std::time::Duration;

/// The greatest number of silent connections that are skipped one after the other.
const MOST_SILENT: u64 = 1 << 40;

/// How many sessions are served, and on which terms their connections.
#[derive(Clone, Copy, Debug)]
pub struct Terms {
    /// The number of sessions.
    pub sessions: u16,
    /// How long a read or a write of a session may wait, if that is limited.
    pub idle: Option<Duration>,
    /// Whether a connection that is closed before it sends a byte is skipped, and does not count as a session.
    pub skips_silent: bool,
}

/// Serves one client over a reader and a writer. Returns `Memory` when memory ran out; anything else that ended the
/// session ended only that session, and is not an error here.
fn serve_client<R: Wait, I: Read, W: Write, S: Session>(
    rt: &R,
    alloc: Global,
    reader: &mut Counted<I>,
    writer: &mut Counted<W>,
    session: &mut S,
) -> Result<(), Memory>
    // The bytes and the calls are those of a session, which ended with `Memory` exactly where this call does.
    ensures serves { (end : Result Served Fault) × (input : List ℕ) × (gained : List Call) × (written : List ℕ)
        × Consumes (I.remaining (inner reader.old)) (I.remaining (inner reader.new)) input
        × (S.calls session.new ≡ S.calls session.old ++ gained)
        × Appends (W.contents (inner writer.old)) (W.contents (inner writer.new)) written
        × Serves (S.format session.old) (IsAtEnd (I.remaining (inner reader.new))) input gained written end
        × (IsErr result ↔ IsErrOf end NetFault.Memory) }

    // Where it ends with `Memory`, no read and no write has failed.
    ensures heard { OnErr result ((failures reader.new ≡ failures reader.old) × (failures writer.new ≡ failures writer.old)) }
    ensures kept_format { S.format session.new ≡ S.format session.old }
    ensures ended { S.ended session.new ≡ S.ended session.old }
{
    match serve_session(rt, alloc, reader, writer, session) {
        Err(NetFault::Memory) => Err(Memory),
        _ => Ok(()),
    }
}

/// Limits how long a read or a write may wait, if a time is given; otherwise there is no limit.
fn let_wait(stream: &TcpStream, idle: Option<Duration>) -> io::Result<()> {
    stream.set_read_timeout(idle)?;
    stream.set_write_timeout(idle)
}

/// Serves one connection. If a time is given, a read or a write that waits longer fails. Where the system does not
/// accept that time, the session ends before its first read. A client that reads gets everything that was written,
/// whatever it sends after the end of its session, within the limits of `part_from`.
fn serve_connection<R: Wait, S: Session>(
    rt: &R,
    alloc: Global,
    stream: &TcpStream,
    session: &mut S,
    idle: Option<Duration>,
) -> Result<(), Memory>
    ensures served { (gained : List Call) × (S.calls session.new ≡ S.calls session.old ++ gained)
        × IsSession (S.format session.old) gained }
    ensures kept_format { S.format session.new ≡ S.format session.old }
    ensures ended { S.ended session.new ≡ S.ended session.old }
{
    if let_wait(stream, idle).is_err() {
        return Ok(());
    }
    let mut reader = Counted::new(stream);
    let mut writer = Counted::new(stream);
    let served = serve_client(rt, alloc, &mut reader, &mut writer, session);
    part_from(stream);
    served
}

/// A listener on a port of 127.0.0.1. The only error is `BindFailed`, where the port cannot be bound.
pub fn bind<R: Net<Listener = TcpListener, Stream = TcpStream>>(
    rt: &R,
    port: u16,
) -> Result<TcpListener, NetFault>
    ensures { IfErr result (λ fault. fault ≡ NetFault.BindFailed) }
{
    match TcpListener::bind(rt, (Ipv4Addr::LOCALHOST, port)) {
        Ok(listener) => Ok(listener),
        Err(_) => Err(NetFault::BindFailed),
    }
}

/// Whether a connection is closed before it sends a byte. This waits for a byte or the end, no longer than a read may.
fn is_silent(stream: &TcpStream, idle: Option<Duration>) -> bool {
    let mut first = [0u8; 1];
    stream.set_read_timeout(idle).is_ok() && matches!(stream.peek(&mut first), Ok(0))
}

/// Accepts the next connection. Where silent connections are skipped, this is the next that sends a byte, stays silent
/// for longer than a read may wait, or fails. The only error is `AcceptFailed`, where no connection can be accepted, or
/// 1,099,511,627,776 silent ones were skipped.
fn next_connection(listener: &TcpListener, terms: Terms) -> Result<TcpStream, NetFault>
    ensures { IfErr result (λ fault. fault ≡ NetFault.AcceptFailed) }
{
    for _ in 0..MOST_SILENT {
        let stream = match listener.accept() {
            Ok((stream, _)) => stream,
            Err(_) => return Err(NetFault::AcceptFailed),
        };
        if !(terms.skips_silent && is_silent(&stream, terms.idle)) {
            return Ok(stream);
        }
        drop(stream);
    }
    Err(NetFault::AcceptFailed)
}

/// Listens on a port of 127.0.0.1, and serves `sessions` connections, one after the other, each by `serve_session`. Any
/// fault but `Memory` ends only its session, which counts as served. `after_session` is called after each session.
///
/// Errors: `BindFailed` where the port cannot be bound, `AcceptFailed` where no connection can be accepted, and
/// `Memory` after the session in which memory ran out.
pub fn listen<R: Net<Listener = TcpListener, Stream = TcpStream> + Wait, S: Session>(
    rt: &R,
    alloc: Global,
    port: u16,
    session: &mut S,
    sessions: u16,
) -> Result<(), NetFault>
    // The session's list gained the calls of `begun` sessions, and no others, and each session ended before the next
    // began. The number of ended sessions rose by `begun`, as long as it is below 2 ^ 64.
    ensures sessions { (begun : ℕ) × (gained : List Call) × (S.calls session.new ≡ S.calls session.old ++ gained)
        × AreSessions (S.format session.old) begun gained
        × AreServed (S.format session.old) S.calls S.ends begun session.old session.new × IsCount sessions begun result
        × (S.ended session.old + begun < 2 ^ 64 → S.ended session.new ≡ S.ended session.old + begun) }
{
    let listener = bind(rt, port)?;
    let terms = Terms {
        sessions,
        idle: None,
        skips_silent: false,
    };
    serve_connections(rt, alloc, &listener, session, terms)
}

/// Serves `terms.sessions` connections to a listener, one after the other, each by `serve_session`. Any fault but
/// `Memory` ends only its session, which counts as served. `after_session` is called after each session. If `terms.idle`
/// is given, a client that sends nothing, or takes nothing, for longer than that in mid-session ends its session alone,
/// as a failed read or a failed write does. If `terms.skips_silent` is set, a connection that is closed before it sends
/// a byte is skipped.
///
/// Errors: `AcceptFailed` where no connection can be accepted, and `Memory` after the session in which memory ran out.
pub fn serve_connections<R: Wait, S: Session>(
    rt: &R,
    alloc: Global,
    listener: &TcpListener,
    session: &mut S,
    terms: Terms,
) -> Result<(), NetFault>
    // The clause of `listen`, of `terms.sessions` sessions.
    ensures sessions { (begun : ℕ) × (gained : List Call) × (S.calls session.new ≡ S.calls session.old ++ gained)
        × AreSessions (S.format session.old) begun gained
        × AreServed (S.format session.old) S.calls S.ends begun session.old session.new × IsCount terms.sessions begun result
        × (S.ended session.old + begun < 2 ^ 64 → S.ended session.new ≡ S.ended session.old + begun) }
    ensures unbound { result ≢ Err NetFault.BindFailed }
{
    for _ in 0..terms.sessions {
        let stream = next_connection(listener, terms)?;
        let served = serve_connection(rt, alloc, &stream, session, terms.idle);
        drop(stream);
        session.after_session(rt);
        if let Err(Memory) = served {
            return Err(NetFault::Memory);
        }
    }
    Ok(())
}
