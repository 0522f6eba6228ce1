//! Writing a trace's text while the trace grows.
use crate::fault::{FinishFault, WriteFault};
use crate::record::Record;
use crate::trace::{Trace, is_op};
use crate::writer::{TraceWriter, Unwritten};
use crate::writing::text_of;
use cops_types::{Counted, Format, write_text};
use std::alloc::Global;
use std::io::Write;
use std::snapshot::Snapshot;

/// Writes the text of a trace that is not complete yet: its head at once, and each record as it comes. It keeps what it
/// wrote, so that the rest can be written once the trace is complete.
#[derive(Drop)]
pub struct LiveTrace<W: Write> {
    writer: TraceWriter<W>,
    text: Vec<u8>,
    begun: Snapshot<Counted<W>>,
}

/// The writer, and why the rest of a trace's text was not written.
#[derive(Drop)]
pub struct Unfinished<W: Write> {
    pub writer: Counted<W>,
    pub fault: FinishFault,
}

impl<W: Write> LiveTrace<W> {
    ghost use Rattle.std.specs.Prelude.{◌≡◌, ◌↔◌, ◌++◌, ℕ, [], ◌∷◌, IfErr, IfOk, IsTrue};
    ghost use Rattle.std.specs.Io.KnownBytes.{Appends};
    ghost use Rattle.cops_types.specs.Counted.{failures, inner};
    ghost use Rattle.cops_types.specs.Format.{IsInFormat};
    ghost use Rattle.cops_types.specs.Operations.{operation_of};
    ghost use Rattle.cops_trace.specs.Counts.{HasTurn};
    ghost use Rattle.cops_trace.specs.Live.{Gains, HasBegun, IsCutBy, IsCutShort, IsEndedBy, IsPrefixOf, IsHeardBy, IsLeftBy, IsLive};
    ghost use Rattle.cops_trace.specs.Text.{record_of, text};

    /// Writes the head for a format and a number of clients. Returns the writer if the head is not written.
    pub fn new(
        format: Format,
        alloc: Global,
        writer: Counted<W>,
        clients: u16,
    ) -> Result<Self, Unwritten<W>>
        ensures begun { IfOk result (λ l. l.begun.value ≡ writer) }
        ensures format { IfOk result (λ l. l.writer.counts.format ≡ format) }
        ensures live { IfOk result (IsLive W.contents) }
        ensures err { IfErr result (λ u. IsCutBy u.fault (W.contents (inner writer)) (W.contents (inner u.writer))) }
        ensures heard { IfErr result (λ u. IsHeardBy u.fault (failures writer) (failures u.writer)) }
    {
        let begun = Snapshot::of(&writer);
        match TraceWriter::new(format, alloc, writer, clients) {
            Ok(writer) => LiveTrace::kept(writer, Vec::new(alloc), begun),
            Err(unwritten) => Err(unwritten),
        }
    }

    /// Adds the frame that was written last to the text kept before. Returns the writer if memory runs out.
    fn kept(
        writer: TraceWriter<W>,
        mut text: Vec<u8>,
        begun: Snapshot<Counted<W>>,
    ) -> Result<Self, Unwritten<W>>
        requires wrote { HasBegun (W.contents (inner begun.value)) (W.contents (inner writer.writer)) (text.items ++ writer.frame.items) writer.counts writer.written }
        requires heard { failures writer.writer ≡ failures begun.value }
        ensures begun { IfOk result (λ l. l.begun ≡ begun) }
        ensures live { IfOk result (IsLive W.contents) }
        ensures kept { IfOk result (λ l. (l.writer ≡ writer) × (l.text.items ≡ text.items ++ writer.frame.items)) }
        ensures err { IfErr result (λ u. (u.fault ≡ WriteFault.Memory) × (failures u.writer ≡ failures begun.value)) }
        ensures cut { IfErr result (λ u. (written : ℕ) × IsCutShort (W.contents (inner begun.value)) (W.contents (inner u.writer)) written) }
    {
        match text.extend_from_slice(writer.frame()) {
            Ok(()) => Ok(LiveTrace {
                writer,
                text,
                begun,
            }),
            Err(_) => Err(writer.give_up(WriteFault::Memory)),
        }
    }

    /// The format that the head names.
    pub fn format(&self) -> Format
        ensures { result ≡ self.now.writer.counts.format }
    {
        self.writer.format()
    }

    /// The number of records written.
    pub fn len(&self) -> usize
        ensures { result ≡ self.now.writer.counts.total }
    {
        self.writer.len()
    }

    /// Whether there is such a client and it may have one more record.
    pub fn has_turn(&self, client: u16) -> bool
        ensures { IsTrue result ↔ HasTurn self.now.writer.counts client }
    {
        self.writer.has_turn(client)
    }

    /// Writes the next record, an operation of the format, whose client may have one more. Returns the writer if the
    /// record is not written.
    pub fn add(self, next: &Record) -> Result<Self, Unwritten<W>>
        requires live { IsLive W.contents self }
        requires turn { HasTurn self.writer.counts next.now.client }
        requires format { IsInFormat self.writer.counts.format (operation_of next.now.op) }
        ensures begun { IfOk result (λ l. l.begun ≡ self.begun) }
        ensures format { IfOk result (λ l. l.writer.counts.format ≡ self.writer.counts.format) }
        ensures live { IfOk result (IsLive W.contents) }
        ensures gains { IfOk result (Gains (record_of next.now ∷ []) self) }
        ensures err { IfErr result (λ u. IsCutBy u.fault (W.contents (inner self.begun.value)) (W.contents (inner u.writer))) }
        ensures heard { IfErr result (λ u. IsHeardBy u.fault (failures self.begun.value) (failures u.writer)) }
    {
        let LiveTrace {
            mut writer,
            text,
            begun,
        } = self;
        is_op(writer.format(), &next.op.as_ref());
        match writer.op(next.client, &next.op) {
            Ok(()) => LiveTrace::kept(writer, text, begun),
            Err(fault) => Err(writer.give_up(fault)),
        }
    }

    /// Returns the writer, without writing the rest.
    pub fn into_writer(self) -> Counted<W>
        requires { IsLive W.contents self }
        ensures cut { (written : ℕ) × IsCutShort (W.contents (inner self.begun.value)) (W.contents (inner result)) written }
        ensures heard { failures result ≡ failures self.begun.value }
    {
        let LiveTrace { writer, .. } = self;
        writer.into_writer()
    }

    /// Writes the rest of the trace's text, in one piece, and returns the writer. A failed write is not tried again.
    ///
    /// Errors, with the writer: `Memory` if memory runs out, `OfAnother` if what was written is not a prefix of the
    /// trace's text, `WriteFailed` if the write fails.
    pub fn finish(self, alloc: Global, trace: &Trace) -> Result<Counted<W>, Unfinished<W>>
        requires { IsLive W.contents self }
        ensures ok { IfOk result (λ w. Appends (W.contents (inner self.begun.value)) (W.contents (inner w)) (text trace.now)) }
        ensures heard { IfOk result (λ w. failures w ≡ failures self.begun.value) }
        ensures err { IfErr result (λ u. IsLeftBy u.fault (W.contents (inner self.begun.value)) (W.contents (inner u.writer))) }
        ensures another { IfErr result (λ u. u.fault ≡ FinishFault.OfAnother → IsPrefixOf self.text.items trace.now → ⊥) }
        ensures failed { IfErr result (λ u. IsEndedBy u.fault (failures self.begun.value) (failures u.writer)) }
    {
        let LiveTrace { writer, text, .. } = self;
        let _records = trace.len();
        let mut writer = writer.into_writer();
        let Ok(whole) = text_of(alloc, trace) else {
            let fault = FinishFault::Memory;
            return Err(Unfinished { writer, fault });
        };
        let Some(rest) = whole.strip_prefix(&text) else {
            let fault = FinishFault::OfAnother;
            return Err(Unfinished { writer, fault });
        };
        match write_text(&mut writer, rest) {
            Ok(()) => Ok(writer),
            Err(count) => {
                let written = text.len() + count;
                let fault = FinishFault::WriteFailed { written };
                Err(Unfinished { writer, fault })
            }
        }
    }
}
