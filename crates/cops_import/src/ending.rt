//! The end of an import: the puts of unknown outcome that took effect, and the end record.
ghost use Rattle.std.specs.Prelude.{◌≡◌, ◌≢◌, [], ◌∷◌, ◌++◌, List, length, IfErr, IfOk, OnOk};
ghost use Rattle.cops_types.specs.declared.counted.Counted.{Counted as ACounted};
ghost use Rattle.cops_types.specs.Format.{Fits, IsInFormat};
ghost use Rattle.cops_types.specs.Histories.{write};
ghost use Rattle.cops_types.specs.KeyValue.{IsKey};
ghost use Rattle.cops_types.specs.Operations.{operation_of};
ghost use Rattle.cops_types.specs.Version.{IsVersion};
ghost use Rattle.cops_trace.specs.Text.{IsOp};
ghost use Rattle.cops_import.specs.Lines.{AReturned, names_of, operations_of, returned_in, with_versions};
ghost use Rattle.cops_import.specs.Outcomes.{outcome_of};
ghost use Rattle.cops_import.specs.Underway.{HasEndedWith, HasEnding, HasLeft, HasOwn, IsBegun, IsStopAtEnd, IsStopOfNext, IsStopOfOwn};
ghost use Rattle.cops_import.specs.declared.reported.LineOp.{LineOp as AGivenOp};

use crate::fault::{ImportFault, JsonLineFault};
use crate::imported::{Imported, Unimported};
use crate::names::Names;
use crate::outcome::Outcome;
use crate::reported::UnknownPut;
use cops_outcomes::Outcomes;
use cops_trace::TraceWriter;
use cops_types::{MAX_CLIENTS, Op, Version, content_copy};
use std::alloc::{AllocError, Global};
use std::io::Write;

/// An import whose lines were all taken: the writer of the trace, the number of clients that the caller said, and the
/// number of the next client that has one put.
#[derive(Drop)]
pub(crate) struct Ending<W: Write> {
    writer: TraceWriter<W>,
    clients: u16,
    client: usize,
}

/// The put of unknown outcome that took effect with this version.
fn put_of(put: &UnknownPut, version: Version) -> Result<Op, AllocError>
    ensures op { IfOk result (λ op. operation_of op ≡ write put.now.write.key put.now.write.content version) }
    ensures legal { IfOk result (λ _. IsKey put.now.write.key × IsVersion version) }
{
    let key = put.write.key.clone()?;
    let content = content_copy(put.write.content.as_ref())?;
    Ok(Op::write(key, content, version))
}

/// What became of a put of unknown outcome. The only error is `Memory`.
fn outcome_of(put: &UnknownPut, version: Option<Version>) -> Result<Outcome, ImportFault>
    ensures ok { IfOk result (λ outcome. outcome ≡ outcome_of put.now version) }
    ensures err { IfErr result (λ e. e ≡ ImportFault.Memory) }
{
    match put.name.clone() {
        Ok(name) => Ok(Outcome {
            name,
            line: put.line,
            version,
        }),
        Err(_) => Err(ImportFault::Memory),
    }
}

impl<W: Write> Ending<W> {
    /// Begins to end an import whose lines name this many clients.
    pub(crate) fn new(writer: TraceWriter<W>, clients: u16, names: usize) -> Ending<W>
        ensures { result ≡ record { writer = writer; clients = clients; client = names } }
    {
        Ending {
            writer,
            clients,
            client: names,
        }
    }

    /// Writes the record of a put that took effect, from the line of this number, as that of a client of its own.
    fn write(&mut self, op: &Op, line: u64) -> Result<(), ImportFault>
        requires { IsInFormat self.old.writer.counts.format (operation_of op.now) }
        ensures ok { OnOk result ((from : ACounted W) (ops : List AGivenOp) (returned : List AReturned) (next : AReturned) → operation_of op.now ≡ write next.put.write.key next.put.write.content next.version
            → IsOp self.old.writer.counts.format (operation_of op.now) → HasOwn W.contents from ops returned self.old → HasOwn W.contents from ops (returned ++ next ∷ []) self.new) }
        ensures err { IfErr result (λ e. (from : ACounted W) (ops : List AGivenOp) (returned : List AReturned) → IsOp self.old.writer.counts.format (operation_of op.now) → HasOwn W.contents from ops returned self.old → HasLeft W.contents from e self.new.writer.writer) }
        ensures stop { IfErr result (λ e. (from : ACounted W) (ops : List AGivenOp) (returned : List AReturned) → HasOwn W.contents from ops returned self.old → IsStopOfOwn self.old.clients ops returned line e) }
        ensures device { IfErr result (λ e. e ≢ ImportFault.ReadFailed) }
        ensures clients { self.new.clients ≡ self.old.clients }
        ensures format { OnOk result (self.new.writer.counts.format ≡ self.old.writer.counts.format) }
    {
        if self.client >= usize::from(MAX_CLIENTS) {
            return Err(ImportFault::Line {
                number: line,
                fault: JsonLineFault::TooManyClients,
            });
        }
        if self.client >= usize::from(self.clients) {
            return Err(ImportFault::Changed);
        }
        let client = self.client as u16;
        if !self.writer.has_turn(client) {
            return Err(ImportFault::Line {
                number: line,
                fault: JsonLineFault::TooManyOperations,
            });
        }
        match self.writer.op(client, op) {
            Ok(()) => {
                self.client += 1;
                Ok(())
            }
            Err(fault) => Err(ImportFault::from(fault)),
        }
    }

    /// Takes a put of unknown outcome that took effect with this version.
    fn take(&mut self, put: &UnknownPut, version: Version) -> Result<(), ImportFault>
        ensures ok { OnOk result ((from : ACounted W) (ops : List AGivenOp) (returned : List AReturned)
            → HasOwn W.contents from ops returned self.old → HasOwn W.contents from ops (returned ++ record { put = put.now; version = version } ∷ []) self.new) }
        ensures err { IfErr result (λ e. (from : ACounted W) (ops : List AGivenOp) (returned : List AReturned) → HasOwn W.contents from ops returned self.old → HasLeft W.contents from e self.new.writer.writer) }
        ensures stop { IfErr result (λ e. (from : ACounted W) (ops : List AGivenOp) (returned : List AReturned) → HasOwn W.contents from ops returned self.old → Fits self.old.writer.counts.format put.now.write.content
            → IsStopOfOwn self.old.clients ops returned put.now.line e) }
        ensures device { IfErr result (λ e. e ≢ ImportFault.ReadFailed) }
        ensures clients { self.new.clients ≡ self.old.clients }
        ensures format { OnOk result (self.new.writer.counts.format ≡ self.old.writer.counts.format) }
    {
        let Ok(op) = put_of(put, version) else {
            return Err(ImportFault::Memory);
        };
        // A put that was kept is in the format.
        if !op.in_format(self.writer.format()) {
            return Err(ImportFault::Changed);
        }
        self.write(&op, put.line)
    }

    /// Takes a put of unknown outcome, which took effect if it has a version, and returns what became of it.
    fn take_next(
        &mut self,
        put: &UnknownPut,
        version: Option<Version>,
    ) -> Result<Outcome, ImportFault>
        ensures ok { IfOk result (λ outcome. (outcome ≡ outcome_of put.now version) × ((from : ACounted W) (ops : List AGivenOp) (returned : List AReturned) → HasOwn W.contents from ops returned self.old
            → HasOwn W.contents from ops (returned ++ with_versions (put.now ∷ []) (version ∷ [])) self.new)) }
        ensures err { IfErr result (λ e. (from : ACounted W) (ops : List AGivenOp) (returned : List AReturned) → HasOwn W.contents from ops returned self.old → HasLeft W.contents from e self.new.writer.writer) }
        ensures stop { IfErr result (λ e. (from : ACounted W) (ops : List AGivenOp) (returned : List AReturned) → HasOwn W.contents from ops returned self.old → Fits self.old.writer.counts.format put.now.write.content
            → IsStopOfNext self.old.clients ops returned put.now version e) }
        ensures device { IfErr result (λ e. e ≢ ImportFault.ReadFailed) }
        ensures clients { self.new.clients ≡ self.old.clients }
        ensures format { OnOk result (self.new.writer.counts.format ≡ self.old.writer.counts.format) }
    {
        match version {
            None => outcome_of(put, None),
            Some(version) => match self.take(put, version) {
                Ok(()) => outcome_of(put, Some(version)),
                Err(fault) => Err(fault),
            },
        }
    }

    /// Takes one put after another, as their outcomes say, and returns what became of each.
    pub(crate) fn take_all(
        &mut self,
        alloc: Global,
        puts: &[UnknownPut],
        outcomes: &mut Outcomes,
    ) -> Result<Vec<Outcome>, ImportFault>
        ensures ok { IfOk result (λ done. (from : ACounted W) (ops : List AGivenOp) → IsBegun W.contents from ops puts.now outcomes.old self.old → HasEnding W.contents from ops puts.now done.items self.new) }
        ensures err { IfErr result (λ e. (from : ACounted W) (ops : List AGivenOp) → IsBegun W.contents from ops puts.now outcomes.old self.old → HasLeft W.contents from e self.new.writer.writer) }
        ensures stop { IfErr result (λ e. (from : ACounted W) (ops : List AGivenOp) → IsBegun W.contents from ops puts.now outcomes.old self.old → IsStopAtEnd self.old.clients ops (returned_in (operations_of ops) puts.now) e) }
        ensures device { IfErr result (λ e. e ≢ ImportFault.ReadFailed) }
        ensures clients { self.new.clients ≡ self.old.clients }
        ensures format { OnOk result (self.new.writer.counts.format ≡ self.old.writer.counts.format) }
    {
        let mut done = Vec::new(alloc);
        for put in puts {
            match self.take_next(put, outcomes.next(&put.write)) {
                Ok(outcome) => match done.push(outcome) {
                    Ok(()) => {}
                    Err(_) => return Err(ImportFault::Memory),
                },
                Err(fault) => return Err(fault),
            }
        }
        Ok(done)
    }

    /// Writes the end record, if there are as many clients as the caller said. The lines named these, and had this number
    /// of operations whose outcome was known.
    pub(crate) fn end(
        self,
        names: Names,
        operations: usize,
        unknown: Vec<Outcome>,
    ) -> Result<Imported<W>, Unimported<W>>
        ensures ok { IfOk result (λ done. (from : ACounted W) (ops : List AGivenOp) (returned : List AReturned) → HasOwn W.contents from ops returned self → names ≡ names_of ops → operations ≡ length ops
            → HasEndedWith W.contents from self.writer.counts.format self.clients ops returned unknown.items done) }
        ensures err { IfErr result (λ u. (from : ACounted W) (ops : List AGivenOp) (returned : List AReturned) → HasOwn W.contents from ops returned self → HasLeft W.contents from u.fault u.writer) }
        ensures stop { IfErr result (λ u. (from : ACounted W) (ops : List AGivenOp) (returned : List AReturned) → HasOwn W.contents from ops returned self → IsStopAtEnd self.clients ops returned u.fault) }
        ensures device { IfErr result (λ u. u.fault ≢ ImportFault.ReadFailed) }
    {
        if self.client != usize::from(self.clients) {
            return Err(self.give_up(ImportFault::Changed));
        }
        let Ending { writer, client, .. } = self;
        let took_effect = client.saturating_sub(names.len());
        match writer.end() {
            Ok(writer) => Ok(Imported {
                names,
                unknown,
                operations: operations.saturating_add(took_effect),
                writer,
            }),
            Err(unwritten) => Err(Unimported::from(unwritten)),
        }
    }

    /// Returns the writer, with this fault.
    pub(crate) fn give_up(self, fault: ImportFault) -> Unimported<W>
        ensures { result ≡ record { writer = self.writer.writer; fault = fault } }
    {
        let Ending { writer, .. } = self;
        Unimported {
            writer: writer.into_writer(),
            fault,
        }
    }
}
