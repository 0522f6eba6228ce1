//! Writing a trace's text as its records come.
use crate::counts::Counts;
use crate::fault::WriteFault;
use crate::trace::append_record;
use crate::writing::append;
use cops_types::{Counted, Format, Op, write_text};
use cops_wire::Message;
use std::alloc::Global;
use std::io::Write;

/// Writes a trace's text a frame at a time: the head, each record as it comes, and the end. It keeps only counts of the
/// records. A failed write is not tried again, and leaves a text that is cut.
#[derive(Drop)]
pub struct TraceWriter<W: Write> {
    writer: Counted<W>,
    counts: Counts,
    /// The number of bytes written. It stops at its greatest value.
    written: usize,
    frame: Vec<u8>,
}

/// The writer, and why a frame was not written.
#[derive(Drop)]
pub struct Unwritten<W: Write> {
    pub writer: Counted<W>,
    pub fault: WriteFault,
}

impl<W: Write> TraceWriter<W> {
    ghost use Rattle.std.specs.Prelude.{◌≡◌, ◌≢◌, ◌↔◌, IfErr, IfOk, IsErrOf, IsTrue, OnErr, OnOk, length};
    ghost use Rattle.std.specs.Io.KnownBytes.{Appends};
    ghost use Rattle.cops_types.specs.Failures.{Failed};
    ghost use Rattle.cops_types.specs.Operations.{operation_of};
    ghost use Rattle.cops_types.specs.Counted.{failures, inner};
    ghost use Rattle.cops_types.specs.Format.{IsInFormat};
    ghost use Rattle.cops_wire.specs.Legal.{IsLegalMessage};
    ghost use Rattle.cops_wire.specs.Message.{encoded};
    ghost use Rattle.cops_trace.specs.Counts.{HasTurn, counted, nothing};
    ghost use Rattle.cops_trace.specs.Writing.{IsUnwritten, end_frame, head_frame, more_written, record_frame};

    /// Writes the head for a format and a number of clients. Returns the writer if the head is not written.
    pub fn new(
        format: Format,
        alloc: Global,
        writer: Counted<W>,
        clients: u16,
    ) -> Result<Self, Unwritten<W>>
        ensures ok { IfOk result (λ w. Appends (W.contents (inner writer)) (W.contents (inner w.writer)) (head_frame format clients)) }
        ensures counts { IfOk result (λ w. (w.counts ≡ nothing format clients) × (w.written ≡ more_written 0 (length (head_frame format clients)))) }
        ensures failed { IfErr result (λ u. u.fault ≢ WriteFault.Memory → Failed (failures writer) (failures u.writer)) }
        ensures heard { IfOk result (λ w. failures w.writer ≡ failures writer) }
        ensures quiet { IfErr result (λ u. u.fault ≡ WriteFault.Memory → failures u.writer ≡ failures writer) }
        ensures frame { IfOk result (λ w. w.frame.items ≡ head_frame format clients) }
        ensures err { IfErr result (λ u. IsUnwritten (head_frame format clients) 0 (W.contents (inner writer)) (W.contents (inner u.writer)) u.fault) }
    {
        let Ok(counts) = Counts::new(format, alloc, clients) else {
            let fault = WriteFault::Memory;
            return Err(Unwritten { writer, fault });
        };
        let mut begun = TraceWriter {
            writer,
            counts,
            written: 0,
            frame: Vec::new(alloc),
        };
        let head = Message::TraceHead {
            format: begun.counts.format().number(),
            clients,
        };
        match begun.write(head) {
            Ok(()) => Ok(begun),
            Err(fault) => Err(begun.give_up(fault)),
        }
    }

    /// Writes the next record of a client, an operation of the format. There has to be such a client, and neither the
    /// client nor the trace may have the most operations allowed.
    pub fn op(&mut self, client: u16, op: &Op) -> Result<(), WriteFault>
        requires turn { HasTurn self.old.counts client }
        requires format { IsInFormat self.old.counts.format (operation_of op.now) }
        ensures ok { OnOk result (Appends (W.contents (inner self.old.writer)) (W.contents (inner self.new.writer)) (record_frame self.old.counts client (operation_of op.now))) }
        ensures counts { OnOk result (self.new.counts ≡ counted self.old.counts client) }
        ensures written { OnOk result (self.new.written ≡ more_written self.old.written (length (record_frame self.old.counts client (operation_of op.now)))) }
        ensures err { IfErr result (IsUnwritten (record_frame self.old.counts client (operation_of op.now)) self.old.written (W.contents (inner self.old.writer)) (W.contents (inner self.new.writer))) }
        ensures failed { IfErr result (λ e. e ≢ WriteFault.Memory → Failed (failures self.old.writer) (failures self.new.writer)) }
        ensures heard { OnOk result (failures self.new.writer ≡ failures self.old.writer) }
        ensures quiet { IsErrOf result WriteFault.Memory → failures self.new.writer ≡ failures self.old.writer }
        ensures frame { OnOk result (self.new.frame.items ≡ record_frame self.old.counts client (operation_of op.now)) }
    {
        self.frame.clear();
        let index = self.counts.next(client);
        append_record(client, index, &op.as_ref(), &mut self.frame).or(Err(WriteFault::Memory))?;
        self.send()?;
        self.counts.add(client);
        Ok(())
    }

    /// Whether there is such a client, and neither the client nor the trace has the most records allowed.
    pub fn has_turn(&self, client: u16) -> bool
        ensures { IsTrue result ↔ HasTurn self.now.counts client }
    {
        self.counts.has_turn(client)
    }

    /// The format that the head names.
    pub fn format(&self) -> Format
        ensures { result ≡ self.now.counts.format }
    {
        self.counts.format()
    }

    /// The number of records written.
    pub(crate) fn len(&self) -> usize
        ensures { result ≡ self.now.counts.total }
    {
        self.counts.total() as usize
    }

    /// The frame that was written last.
    pub(crate) fn frame(&self) -> &[u8]
        ensures { result.now ≡ self.now.frame.items }
    {
        &self.frame
    }

    /// Returns the writer, with this fault.
    pub(crate) fn give_up(self, fault: WriteFault) -> Unwritten<W>
        ensures writer { result.writer ≡ self.writer }
        ensures fault { result.fault ≡ fault }
    {
        let writer = self.into_writer();
        Unwritten { writer, fault }
    }

    /// Writes the end, and returns the writer.
    pub fn end(mut self) -> Result<Counted<W>, Unwritten<W>>
        ensures ok { IfOk result (λ w. Appends (W.contents (inner self.writer)) (W.contents (inner w)) (end_frame self.counts)) }
        ensures failed { IfErr result (λ u. u.fault ≢ WriteFault.Memory → Failed (failures self.writer) (failures u.writer)) }
        ensures heard { IfOk result (λ w. failures w ≡ failures self.writer) }
        ensures err { IfErr result (λ u. IsUnwritten (end_frame self.counts) self.written (W.contents (inner self.writer)) (W.contents (inner u.writer)) u.fault) }
    {
        let end = Message::TraceEnd {
            ops: self.counts.total(),
        };
        let written = self.write(end);
        let writer = self.into_writer();
        match written {
            Ok(()) => Ok(writer),
            Err(fault) => Err(Unwritten { writer, fault }),
        }
    }

    /// Returns the writer, without writing an end.
    pub fn into_writer(self) -> Counted<W>
        ensures { result ≡ self.writer }
    {
        let TraceWriter { writer, .. } = self;
        writer
    }

    /// Writes the frame of a legal message.
    fn write(&mut self, message: Message) -> Result<(), WriteFault>
        requires { IsLegalMessage message }
        ensures ok { OnOk result (Appends (W.contents (inner self.old.writer)) (W.contents (inner self.new.writer)) (encoded message)) }
        ensures err { IfErr result (IsUnwritten (encoded message) self.old.written (W.contents (inner self.old.writer)) (W.contents (inner self.new.writer))) }
        ensures written { OnOk result (self.new.written ≡ more_written self.old.written (length (encoded message))) }
        ensures counts { self.new.counts ≡ self.old.counts }
        ensures failed { IfErr result (λ e. e ≢ WriteFault.Memory → Failed (failures self.old.writer) (failures self.new.writer)) }
        ensures heard { OnOk result (failures self.new.writer ≡ failures self.old.writer) }
        ensures quiet { IsErrOf result WriteFault.Memory → failures self.new.writer ≡ failures self.old.writer }
        ensures frame { OnOk result (self.new.frame.items ≡ encoded message) }
    {
        self.frame.clear();
        append(message, &mut self.frame).or(Err(WriteFault::Memory))?;
        self.send()
    }

    /// Writes the frame in the buffer.
    fn send(&mut self) -> Result<(), WriteFault>
        ensures ok { OnOk result (Appends (W.contents (inner self.old.writer)) (W.contents (inner self.new.writer)) self.old.frame.items) }
        ensures err { IfErr result (λ e. (e ≢ WriteFault.Memory) × IsUnwritten self.old.frame.items self.old.written (W.contents (inner self.old.writer)) (W.contents (inner self.new.writer)) e) }
        ensures written { OnOk result (self.new.written ≡ more_written self.old.written (length self.old.frame.items)) }
        ensures counts { self.new.counts ≡ self.old.counts }
        ensures failed { OnErr result (Failed (failures self.old.writer) (failures self.new.writer)) }
        ensures heard { OnOk result (failures self.new.writer ≡ failures self.old.writer) }
        ensures frame { self.new.frame ≡ self.old.frame }
    {
        match write_text(&mut self.writer, &self.frame) {
            Ok(()) => {
                self.written = self.written.saturating_add(self.frame.len());
                Ok(())
            }
            Err(count) => {
                self.written = self.written.saturating_add(count);
                Err(WriteFault::WriteFailed {
                    written: self.written,
                })
            }
        }
    }
}
