ghost use Rattle.std.specs.Prelude.{◌≡◌, ◌↔◌, ◌+◌, ◌≤◌, ◌++◌, length, vec_len, vec_capacity, IsOk, IsTrue, OnOk};
ghost use Rattle.cops_types.specs.declared.format.Format.TheVariants.{One};
ghost use Rattle.cops_types.specs.Format.{AreInFormat, IsInFormat};
ghost use Rattle.cops_types.specs.OpRefs.{seen};
ghost use Rattle.cops_types.specs.OpViews.{viewed};
ghost use Rattle.cops_wire.specs.Message.{encoded};
ghost use Rattle.cops_wire.specs.Records.{record_message};
ghost use Rattle.cops_trace.specs.Counts.{nothing};
ghost use Rattle.cops_trace.specs.Kept.{IsKept, IsOrder};
ghost use Rattle.cops_trace.specs.Text.{IsOp};
ghost use Rattle.cops_trace.specs.declared.trace.TheConstants.{LONGEST_FRAME};

use crate::counts::Counts;
use cops_types::{Format, History, MAX_BODY, Memory, Op, OpName, OpRef, OpView, TypeFault};
use cops_wire::{encode_record, encoding_is_bounded};
use std::alloc::Global;
use std::marker::Model;

/// The most bytes of a frame: its length, in four, and the longest body.
pub(crate) const LONGEST_FRAME: usize = 4 + MAX_BODY;

/// The operations of clients, in order of arrival: at most 65,535 clients, 1,000,000 operations of one client and
/// 16,000,000 in all.
#[derive(Debug, Drop)]
pub struct Trace {
    format: Format,
    history: History,
    arrivals: Vec<u16>,
}

impl Model for Trace {
    ghost use Rattle.cops_trace.specs.Text.{ATrace};
    ghost use Rattle.cops_trace.specs.Kept.{trace_of, IsKept};

    ghost Value = { ATrace };

    ghost view = { λ t. trace_of t.format t.history.sessions t.arrivals.items };

    ghost invariant = { λ t. IsKept t.format t.history.sessions t.arrivals.items };
}

impl Trace {
    ghost use Rattle.std.specs.Prelude.{◌≡◌, ◌⊎◌, ◌+◌, ◌≤◌, ◌<◌, ◌↔◌, ℕ, List, [], ◌++◌, length, map, vec_len, vec_capacity, IsOk, OnOk, OnErr, IfOk, IfErr, IfSome, IsErrOf, IsTrue, is_some, ◌==◌};
    ghost use Rattle.cops_types.specs.TypeFaults.{IsHistoryFault};
    ghost use Rattle.cops_trace.specs.Text.{IsTrace, beginning, sessions_of, turn};
    ghost use Rattle.cops_trace.specs.Writing.{CountPrefix, prefix};
    ghost use Rattle.cops_trace.specs.Converting.{in_format_2};
    ghost use Rattle.cops_trace.specs.Kept.{grown, trace_of, IsFull, IsOrder};
    ghost use Rattle.cops_types.specs.Format.{AreInFormat};
    ghost use Rattle.cops_types.specs.OpViews.{viewed};
    ghost use Rattle.cops_types.specs.Operations.{operation_of};

    /// A trace of format 1 with `clients` clients, without operations. Fails if memory runs out.
    pub fn new(alloc: Global, clients: u16) -> Result<Self, Memory>
        ensures { IfOk result (λ trace. trace ≡ record { format = One; clients = clients; records = [] }) }
    {
        Trace::new_in(Format::One, alloc, clients)
    }

    /// A trace of a format with `clients` clients, without operations. Fails if memory runs out.
    pub fn new_in(format: Format, alloc: Global, clients: u16) -> Result<Self, Memory>
        ensures { IfOk result (λ trace. trace ≡ record { format = format; clients = clients; records = [] }) }
    {
        let history = History::new(alloc, clients)?;
        Ok(Trace {
            format,
            history,
            arrivals: Vec::new(alloc),
        })
    }

    /// The trace of a history whose operations arrived in this order: for each operation its client. None if the
    /// arrivals are no order of the history's operations, or an operation is not in the format. Fails if memory runs
    /// out.
    pub fn of(format: Format, history: History, arrivals: Vec<u16>) -> Result<Option<Trace>, Memory>
        ensures trace { IfOk result (λ made. IfSome made (λ trace. trace ≡ trace_of format history.sessions arrivals.items)) }
        ensures some { IfOk result (λ made. IsTrue (is_some made)
            ↔ (IsOrder history.sessions arrivals.items × AreInFormat format history.sessions)) }
    {
        let counts = Counts::new(format, *arrivals.allocator(), history.clients() as u16)?;
        if is_trace(format, &history, &arrivals, counts) {
            Ok(Some(Trace {
                format,
                history,
                arrivals,
            }))
        } else {
            Ok(None)
        }
    }

    /// The trace of format 2 with the same clients and operations.
    pub(crate) fn into_format_2(self) -> Trace
        ensures { result ≡ in_format_2 self }
    {
        let Trace {
            history,
            arrivals,
            ..
        } = self;
        Trace {
            format: Format::Two,
            history,
            arrivals,
        }
    }

    /// The format.
    pub fn format(&self) -> Format
        ensures { result ≡ self.now.format }
    {
        self.format
    }

    /// Adds an operation of the trace's format. Errors: `UnknownClient` if there is no such client, then `TooManyOps`
    /// if the client has 1,000,000 operations or there are 16,000,000, then `Memory` if memory runs out. An error
    /// changes nothing.
    pub fn push(&mut self, client: u16, op: Op) -> Result<(), TypeFault>
        requires { IsInFormat self.old.format (operation_of op) }
        ensures ok { OnOk result (self.new ≡ grown self.old (record { client = client; op = operation_of op })) }
        ensures err { OnErr result (self.new ≡ self.old) }
        ensures unknown { IsErrOf result TypeFault.UnknownClient ↔ (self.old.clients ≤ client) }
        ensures too_many { IsErrOf result TypeFault.TooManyOps ↔ (client < self.old.clients × IsFull self.old client) }
        ensures only { IfErr result IsHistoryFault }
    {
        self.history.reserve(client)?;
        self.arrivals.reserve(1)?;
        is_op(self.format, &op.as_ref());
        self.history.push(client, op)?;
        self.arrivals.push_reserved(client);
        Ok(())
    }

    /// Like `push`, with a borrowed operation: copies what is new of it.
    pub(crate) fn push_borrowed(&mut self, client: u16, op: &OpView<'_>) -> Result<(), TypeFault>
        requires { IsInFormat self.old.format (viewed op.now) }
        ensures ok { OnOk result (self.new ≡ grown self.old (record { client = client; op = viewed op.now })) }
        ensures err { OnErr result (self.new ≡ self.old) }
        ensures unknown { IsErrOf result TypeFault.UnknownClient ↔ (self.old.clients ≤ client) }
        ensures too_many { IsErrOf result TypeFault.TooManyOps ↔ (client < self.old.clients × IsFull self.old client) }
        ensures only { IfErr result IsHistoryFault }
    {
        self.history.reserve(client)?;
        self.arrivals.reserve(1)?;
        legal_view(self.format, op);
        match self.history.push_borrowed(client, op) {
            Ok(()) => {}
            Err(Memory) => return Err(TypeFault::Memory),
        }
        let arrivals = &mut self.arrivals;
        arrivals.push_reserved(client);
        Ok(())
    }

    /// Whether prefetching is useful.
    pub(crate) fn looks_ahead(&self) -> bool {
        self.history.looks_ahead()
    }

    /// Prefetches the memory that coming operations need.
    pub(crate) fn prefetch(&mut self, coming: &[OpView<'_>])
        ensures { self.new ≡ self.old }
    {
        self.history.prefetch(coming);
    }

    /// The sessions that the trace records.
    pub fn history(&self) -> &History
        ensures sessions { result.now.sessions ≡ sessions_of self.now }
        ensures trace { IsTrace self.now }
    {
        &self.history
    }

    /// How many clients there are.
    pub fn clients(&self) -> u16
        ensures { result ≡ self.now.clients }
    {
        self.history.clients() as u16
    }

    /// How many operations there are.
    pub fn len(&self) -> usize
        ensures count { result ≡ length self.now.records }
        ensures trace { IsTrace self.now }
    {
        self.arrivals.len()
    }

    /// The client of each operation, in order of arrival.
    pub fn arrivals(&self) -> &[u16]
        ensures { result.now ≡ map (λ r. r.client) self.now.records }
    {
        self.arrivals.as_slice()
    }

    /// Whether there is no operation.
    pub fn is_empty(&self) -> bool
        ensures { result ≡ (length self.now.records == 0) }
    {
        self.arrivals.is_empty()
    }

    /// Appends the frames of records, of which the counts say where the next one is, until the text has `most` bytes or
    /// no record is left. It takes no memory where there is room for `most` bytes and one frame more.
    pub(crate) fn append_records(
        &self,
        counts: &mut Counts,
        most: usize,
        out: &mut Vec<u8>,
    ) -> Result<(), Memory>
        requires { CountPrefix self.now counts.old }
        ensures at { OnOk result (CountPrefix self.now counts.new) }
        ensures text { OnOk result ((before : List ℕ) → before ++ out.old.items ≡ beginning (prefix counts.old.total self.now)
            → before ++ out.new.items ≡ beginning (prefix counts.new.total self.now)) }
        ensures until { OnOk result ((counts.new.total ≡ length self.now.records) ⊎ (most ≤ vec_len out.new)) }
        ensures more { OnOk result (counts.old.total < length self.now.records → vec_len out.old < most → counts.old.total < counts.new.total) }
        ensures succeeds { most + LONGEST_FRAME ≤ vec_capacity out.old → IsOk result }
        ensures capacity { vec_capacity out.old ≤ vec_capacity out.new }
    {
        let mut at = counts.total() as usize;
        while out.len() < most && at < self.arrivals.len() {
            let client = self.arrivals[at];
            let index = counts.next(client);
            match self.history.op(OpName { client, index }) {
                Some(op) => append_record(client, index, &op, out)?,
                None => unreachable!(),
            }
            counts.add(client);
            at += 1;
        }
        Ok(())
    }

    /// The number of a client's operations.
    pub(crate) fn turn(&self, client: u16) -> usize
        ensures { result ≡ turn client self.now.records }
    {
        self.history.session_len(client)
    }
}

/// The whole records before a cut, and the offset of the cut. For a whole text all records, and no offset.
#[derive(Debug, Drop)]
pub struct Partial {
    pub trace: Trace,
    pub cut: Option<u64>,
}

/// Appends the frame of an operation's record. It takes no memory where there is room for a frame.
#[tactic(auto, unfolding(cops_wire::specs::Message::encoded))]
pub(crate) fn append_record(
    client: u16,
    index: u32,
    op: &OpRef<'_>,
    out: &mut Vec<u8>,
) -> Result<(), Memory>
    ensures text { OnOk result (out.new.items ≡ out.old.items ++ encoded (record_message client index (seen op.now))) }
    ensures succeeds { vec_len out.old + LONGEST_FRAME ≤ vec_capacity out.old → IsOk result }
    ensures capacity { vec_capacity out.old ≤ vec_capacity out.new }
{
    encoding_is_bounded();
    encode_record(client, index, op, out)
}

/// Whether the arrivals are an order of the history's operations, and the operations are in the format.
fn is_trace(format: Format, history: &History, arrivals: &[u16], mut counts: Counts) -> bool
    requires { counts ≡ nothing format (length history.now.sessions) }
    ensures kept { IsTrue result → IsKept format history.now.sessions arrivals.now }
    ensures order { IsTrue result ↔ (IsOrder history.now.sessions arrivals.now × AreInFormat format history.now.sessions) }
{
    if arrivals.len() != history.len() {
        return false;
    }
    for n in 0..arrivals.len() {
        let client = arrivals[n];
        let index = counts.next(client);
        match history.op(OpName { client, index }) {
            Some(op) if is_op(format, &op) => counts.add(client),
            _ => return false,
        }
    }
    true
}

/// Whether an operation is of a format, and so has an encoding in it: its key and its version are within their ranges.
pub(crate) fn is_op(format: Format, op: &OpRef<'_>) -> bool
    ensures format { IsTrue result ↔ IsInFormat format (seen op.now) }
    ensures op { IsInFormat format (seen op.now) → IsOp format (seen op.now) }
{
    match op {
        OpRef::Put {
            key,
            value,
            version,
        }
        | OpRef::Got {
            key,
            value,
            version,
        } => {
            let _key = key.as_bytes();
            let _version = version.as_u64();
            format.fits(*value)
        }
        OpRef::Missed { key } => {
            let _key = key.as_bytes();
            true
        }
    }
}

/// Shows that a borrowed operation of a format has an encoding in it: its key and version are within their ranges.
fn legal_view(_format: Format, op: &OpView<'_>)
    requires { IsInFormat _format (viewed op.now) }
    ensures { IsOp _format (viewed op.now) }
{
    match op {
        OpView::Put { key, version, .. } | OpView::Got { key, version, .. } => {
            let _key = key.as_bytes();
            let _version = version.as_u64();
        }
        OpView::Missed { key } => {
            let _key = key.as_bytes();
        }
    }
}
