//! An import in progress: it takes lines as their bytes come, and writes a record for each operation whose outcome is
//! known.
ghost use Rattle.std.specs.Prelude.{◌≡◌, ◌≢◌, ◌⊎◌, [], ◌∷◌, ◌++◌, List, ℕ, false, Err, IfErr, IfNone, IfOk, IfSome, OnOk};
ghost use Rattle.std.specs.List.{list_any};
ghost use Rattle.cops_outcomes.specs.Outcomes.{same_write};
ghost use Rattle.cops_import.specs.Lines.{IsWithin, ops_of, returned_of};
ghost use Rattle.cops_types.specs.declared.counted.Counted.{Counted as ACounted};
ghost use Rattle.cops_types.specs.Operations.{operation_of};
ghost use Rattle.cops_types.specs.Format.{Fits};
ghost use Rattle.cops_trace.specs.Text.{IsOp};
ghost use Rattle.cops_import.specs.declared.reported.LineOp.{LineOp as AGivenOp};
ghost use Rattle.cops_import.specs.declared.reported.Reported.{Reported as AReported};
ghost use Rattle.cops_import.specs.declared.reported.Reported.TheVariants.{Known, Unknown};
ghost use Rattle.cops_import.specs.Faults.{IsFaultOf};
ghost use Rattle.cops_import.specs.Underway.{Finishes, HasEnded, HasLeft, HasOps, HasStopped, HasTaken, IsStopAt, IsStopAtEnd, IsStopOf, IsUnderway, TakesLine, expected_of, format_of, rules_of};

use crate::ending::Ending;
use crate::fault::{ImportFault, JsonLineFault};
use crate::imported::{Imported, Unimported};
use crate::line::of_line;
use crate::name::Name;
use crate::names::Names;
use crate::not_given::NotGiven;
use crate::reported::{LineOp, Reported, UnknownPut};
use crate::rules::{Expected, Rules, Versions};
use cops_outcomes::Sightings;
use cops_trace::TraceWriter;
use cops_types::{Counted, MAX_CLIENTS, Op};
use memchr::memchr;
use std::alloc::Global;
use std::io::Write;

/// The state of an import: how versions are read, the names so far, the writer of the trace, what operations show of the
/// puts of unknown outcome, these puts, the part of the last line that came, and the number of lines that ended.
#[derive(Drop)]
pub(crate) struct Importer<W: Write> {
    alloc: Global,
    clients: u16,
    versions: Versions,
    names: Names,
    operations: usize,
    writer: TraceWriter<W>,
    sightings: Sightings,
    unknown: Vec<UnknownPut>,
    line: Vec<u8>,
    ended: u64,
}

/// The bytes before the first line feed, and those after it. Nothing if there is no line feed.
pub fn cut_line(bytes: &[u8]) -> Option<(&[u8], &[u8])>
    ensures some { IfSome result (λ parts. IsWithin parts.0.now × (bytes.now ≡ parts.0.now ++ 10 ∷ parts.1.now)) }
    ensures none { IfNone result (IsWithin bytes.now) }
{
    let (part, behind) = bytes.split_at(memchr(b'\n', bytes)?);
    let (_, behind) = behind.split_at(1);
    Some((part, behind))
}

impl<W: Write> Importer<W> {
    /// Begins an import, and writes the head of a trace of the rules' format with the expected number of clients. Returns
    /// the writer if the head is not written.
    pub(crate) fn new(
        alloc: Global,
        trace: Counted<W>,
        rules: Rules,
        expected: Expected,
    ) -> Result<Self, Unimported<W>>
        ensures ok { IfOk result (λ i. IsUnderway W.contents trace [] i) }
        ensures err { IfErr result (λ u. HasLeft W.contents trace u.fault u.writer) }
        ensures fault { IfErr result (λ u. (bytes : List ℕ) → IsFaultOf rules expected bytes u.fault) }
        ensures device { IfErr result (λ u. u.fault ≢ ImportFault.ReadFailed) }
        ensures expected { IfOk result (λ i. expected_of i ≡ expected) }
        ensures rules { IfOk result (λ i. rules_of i ≡ rules) }
    {
        let Rules { format, versions } = rules;
        let Expected { clients, unknown } = expected;
        let Ok(sightings) = Sightings::new(alloc, unknown) else {
            return Err(Unimported {
                writer: trace,
                fault: ImportFault::Memory,
            });
        };
        match TraceWriter::new(format, alloc, trace, clients) {
            Ok(writer) => Ok(Importer {
                alloc,
                clients,
                versions,
                names: Names::new(alloc),
                operations: 0,
                writer,
                sightings,
                unknown: Vec::new(alloc),
                line: Vec::new(alloc),
                ended: 0,
            }),
            Err(unwritten) => Err(Unimported::from(unwritten)),
        }
    }

    /// Writes the record of an operation: that of the named client, from the line of this number.
    fn write(&mut self, name: Name, op: &Op, number: u64) -> Result<(), ImportFault>
        requires { IsOp (format_of self.old) (operation_of op.now) }
        ensures ok { OnOk result ((from : ACounted W) (ops : List AGivenOp) → HasOps W.contents from ops self.old → HasOps W.contents from (ops ++ record { name = name; op = op.now } ∷ []) self.new) }
        ensures err { IfErr result (λ e. (from : ACounted W) (ops : List AGivenOp) → HasOps W.contents from ops self.old → HasLeft W.contents from e self.new.writer.writer) }
        ensures stop { IfErr result (λ e. (from : ACounted W) (ops : List AGivenOp) → HasOps W.contents from ops self.old → IsStopOf self.old.clients number ops (record { name = name; op = op.now }) e) }
        ensures device { IfErr result (λ e. e ≢ ImportFault.ReadFailed) }
        ensures expected { expected_of self.new ≡ expected_of self.old }
        ensures rules { OnOk result (rules_of self.new ≡ rules_of self.old) }
        ensures others { (self.new.sightings ≡ self.old.sightings) × (self.new.unknown ≡ self.old.unknown) × (self.new.line ≡ self.old.line) }
    {
        let Ok(client) = self.names.number(name) else {
            return Err(ImportFault::Memory);
        };
        if self.names.len() > usize::from(MAX_CLIENTS) {
            return Err(ImportFault::Line {
                number,
                fault: JsonLineFault::TooManyClients,
            });
        }
        if self.names.len() > usize::from(self.clients) {
            return Err(ImportFault::Changed);
        }
        let client = client as u16;
        if !self.writer.has_turn(client) {
            return Err(ImportFault::Line {
                number,
                fault: JsonLineFault::TooManyOperations,
            });
        }
        match self.writer.op(client, op) {
            Ok(()) => {
                self.operations = self.operations.saturating_add(1);
                Ok(())
            }
            Err(fault) => Err(ImportFault::from(fault)),
        }
    }

    /// Takes an operation whose outcome is known, from the line of this number.
    fn take_known(&mut self, reported: LineOp, number: u64) -> Result<(), ImportFault>
        requires { IsOp (format_of self.old) (operation_of reported.op) }
        ensures ok { OnOk result ((from : ACounted W) (given : List AReported) → HasTaken W.contents from given self.old → HasTaken W.contents from (given ++ Known reported ∷ []) self.new) }
        ensures err { IfErr result (λ e. (from : ACounted W) (given : List AReported) → HasTaken W.contents from given self.old → HasLeft W.contents from e self.new.writer.writer) }
        ensures stop { IfErr result (λ e. (from : ACounted W) (given : List AReported) → HasTaken W.contents from given self.old → IsStopOf self.old.clients number (ops_of given) reported e) }
        ensures device { IfErr result (λ e. e ≢ ImportFault.ReadFailed) }
        ensures expected { expected_of self.new ≡ expected_of self.old }
        ensures rules { OnOk result (rules_of self.new ≡ rules_of self.old) }
        ensures line { self.new.line ≡ self.old.line }
    {
        let LineOp { name, op } = reported;
        match self.write(name, &op, number) {
            Ok(()) => {}
            Err(fault) => return Err(fault),
        }
        match self.sightings.see(op) {
            Ok(()) => Ok(()),
            Err(_) => Err(ImportFault::Memory),
        }
    }

    /// Keeps a put of unknown outcome, if it is expected.
    fn take_unknown(&mut self, put: UnknownPut) -> Result<(), ImportFault>
        requires { Fits (format_of self.old) put.write.content }
        ensures ok { OnOk result ((from : ACounted W) (given : List AReported) → HasTaken W.contents from given self.old → HasTaken W.contents from (given ++ Unknown put ∷ []) self.new) }
        ensures err { IfErr result (λ e. (from : ACounted W) (given : List AReported) → HasTaken W.contents from given self.old → HasLeft W.contents from e self.new.writer.writer) }
        ensures changed { result ≡ Err ImportFault.Changed → list_any (same_write put.write) self.old.sightings.writes ≡ false }
        ensures faults { IfErr result (λ e. (e ≡ ImportFault.Memory) ⊎ (e ≡ ImportFault.Changed)) }
        ensures expected { expected_of self.new ≡ expected_of self.old }
        ensures rules { OnOk result (rules_of self.new ≡ rules_of self.old) }
        ensures line { self.new.line ≡ self.old.line }
    {
        if !self.sightings.knows(&put.write) {
            return Err(ImportFault::Changed);
        }
        self.unknown.push(put)?;
        Ok(())
    }

    /// Takes the line that has come, which has this number.
    fn take_line(&mut self, number: u64) -> Result<(), ImportFault>
        ensures ok { OnOk result ((from : ACounted W) (given : List AReported) → HasTaken W.contents from given self.old → TakesLine W.contents from (rules_of self.old) number given self.old.line.items self.new) }
        ensures err { IfErr result (λ e. (from : ACounted W) (given : List AReported) → HasTaken W.contents from given self.old → HasLeft W.contents from e self.new.writer.writer) }
        ensures stop { IfErr result (λ e. (from : ACounted W) (given : List AReported) → HasTaken W.contents from given self.old → IsStopAt (rules_of self.old) (expected_of self.old) number given self.old.line.items e) }
        ensures device { IfErr result (λ e. e ≢ ImportFault.ReadFailed) }
        ensures expected { expected_of self.new ≡ expected_of self.old }
        ensures rules { OnOk result (rules_of self.new ≡ rules_of self.old) }
    {
        let format = self.writer.format();
        match of_line(self.alloc, format, &self.versions, number, &self.line) {
            Ok(None) => Ok(()),
            Ok(Some(Reported::Known(reported))) => self.take_known(reported, number),
            Ok(Some(Reported::Unknown(put))) => self.take_unknown(put),
            Err(NotGiven::Memory) => Err(ImportFault::Memory),
            Err(NotGiven::Unranked) => Err(ImportFault::Changed),
            Err(NotGiven::Fault(fault)) => Err(ImportFault::Line { number, fault }),
        }
    }

    /// Takes the line that a line feed ends.
    fn end_line(&mut self) -> Result<(), ImportFault>
        ensures ok { OnOk result ((from : ACounted W) (fed : List ℕ) → IsUnderway W.contents from fed self.old → IsUnderway W.contents from (fed ++ 10 ∷ []) self.new) }
        ensures err { IfErr result (λ e. (from : ACounted W) (fed : List ℕ) → IsUnderway W.contents from fed self.old → HasStopped W.contents from (fed ++ 10 ∷ []) e (rules_of self.old) (expected_of self.old) self.new.writer.writer) }
        ensures device { IfErr result (λ e. e ≢ ImportFault.ReadFailed) }
        ensures expected { expected_of self.new ≡ expected_of self.old }
        ensures rules { OnOk result (rules_of self.new ≡ rules_of self.old) }
    {
        let Some(number) = self.ended.checked_add(1) else {
            return Err(ImportFault::Endless);
        };
        match self.take_line(number) {
            Ok(()) => {
                self.ended = number;
                self.line.clear();
                Ok(())
            }
            Err(fault) => Err(fault),
        }
    }

    /// Takes bytes within a line.
    fn take_part(&mut self, part: &[u8]) -> Result<(), ImportFault>
        requires { IsWithin part.now }
        ensures ok { OnOk result ((from : ACounted W) (fed : List ℕ) → IsUnderway W.contents from fed self.old → IsUnderway W.contents from (fed ++ part.now) self.new) }
        ensures err { IfErr result (λ e. (from : ACounted W) (fed : List ℕ) → IsUnderway W.contents from fed self.old → HasStopped W.contents from (fed ++ part.now) e (rules_of self.old) (expected_of self.old) self.new.writer.writer) }
        ensures device { IfErr result (λ e. e ≢ ImportFault.ReadFailed) }
        ensures expected { expected_of self.new ≡ expected_of self.old }
        ensures rules { OnOk result (rules_of self.new ≡ rules_of self.old) }
    {
        match self.line.extend_from_slice(part) {
            Ok(()) => Ok(()),
            Err(_) => Err(ImportFault::Memory),
        }
    }

    /// Takes bytes within a line, and the line feed that ends it.
    fn take_end(&mut self, part: &[u8]) -> Result<(), ImportFault>
        requires { IsWithin part.now }
        ensures ok { OnOk result ((from : ACounted W) (fed : List ℕ) → IsUnderway W.contents from fed self.old → IsUnderway W.contents from (fed ++ part.now ++ 10 ∷ []) self.new) }
        ensures err { IfErr result (λ e. (from : ACounted W) (fed : List ℕ) → IsUnderway W.contents from fed self.old → HasStopped W.contents from (fed ++ part.now ++ 10 ∷ []) e (rules_of self.old) (expected_of self.old) self.new.writer.writer) }
        ensures device { IfErr result (λ e. e ≢ ImportFault.ReadFailed) }
        ensures expected { expected_of self.new ≡ expected_of self.old }
        ensures rules { OnOk result (rules_of self.new ≡ rules_of self.old) }
    {
        match self.take_part(part) {
            Ok(()) => {}
            Err(fault) => return Err(fault),
        }
        match self.end_line() {
            Ok(()) => Ok(()),
            Err(fault) => Err(fault),
        }
    }

    /// Takes the next bytes.
    pub(crate) fn take_piece(&mut self, piece: &[u8]) -> Result<(), ImportFault>
        ensures ok { OnOk result ((from : ACounted W) (fed : List ℕ) → IsUnderway W.contents from fed self.old → IsUnderway W.contents from (fed ++ piece.now) self.new) }
        ensures err { IfErr result (λ e. (from : ACounted W) (fed : List ℕ) → IsUnderway W.contents from fed self.old → HasStopped W.contents from (fed ++ piece.now) e (rules_of self.old) (expected_of self.old) self.new.writer.writer) }
        ensures device { IfErr result (λ e. e ≢ ImportFault.ReadFailed) }
        ensures expected { expected_of self.new ≡ expected_of self.old }
        ensures rules { OnOk result (rules_of self.new ≡ rules_of self.old) }
    {
        let mut rest = piece;
        while let Some((part, behind)) = cut_line(rest) {
            match self.take_end(part) {
                Ok(()) => {}
                Err(fault) => return Err(fault),
            }
            rest = behind;
        }
        match self.take_part(rest) {
            Ok(()) => Ok(()),
            Err(fault) => Err(fault),
        }
    }

    /// Takes the last line, and writes the end record.
    pub(crate) fn finish(mut self) -> Result<Imported<W>, Unimported<W>>
        ensures ok { IfOk result (λ done. (from : ACounted W) (fed : List ℕ) → IsUnderway W.contents from fed self → Finishes W.contents from (rules_of self) self.clients fed done) }
        ensures err { IfErr result (λ u. (from : ACounted W) (fed : List ℕ) → IsUnderway W.contents from fed self → HasLeft W.contents from u.fault u.writer) }
        ensures fault { IfErr result (λ u. (from : ACounted W) (fed : List ℕ) → IsUnderway W.contents from fed self → IsFaultOf (rules_of self) (expected_of self) fed u.fault) }
        ensures device { IfErr result (λ u. u.fault ≢ ImportFault.ReadFailed) }
    {
        let Some(number) = self.ended.checked_add(1) else {
            return Err(self.give_up(ImportFault::Endless));
        };
        match self.take_line(number) {
            Ok(()) => self.end(),
            Err(fault) => Err(self.give_up(fault)),
        }
    }

    /// Writes the records of puts of unknown outcome that took effect, and the end record, if there are as many clients as
    /// the caller said.
    fn end(self) -> Result<Imported<W>, Unimported<W>>
        ensures ok { IfOk result (λ done. (from : ACounted W) (given : List AReported) → HasTaken W.contents from given self → HasEnded W.contents from (format_of self) self.clients given done) }
        ensures err { IfErr result (λ u. (from : ACounted W) (given : List AReported) → HasTaken W.contents from given self → HasLeft W.contents from u.fault u.writer) }
        ensures stop { IfErr result (λ u. (from : ACounted W) (given : List AReported) → HasTaken W.contents from given self → IsStopAtEnd self.clients (ops_of given) (returned_of given) u.fault) }
        ensures device { IfErr result (λ u. u.fault ≢ ImportFault.ReadFailed) }
    {
        let Importer {
            alloc,
            clients,
            names,
            operations,
            writer,
            sightings,
            unknown,
            ..
        } = self;
        let mut ending = Ending::new(writer, clients, names.len());
        let Ok(mut outcomes) = sightings.outcomes(alloc) else {
            return Err(ending.give_up(ImportFault::Memory));
        };
        match ending.take_all(alloc, &unknown, &mut outcomes) {
            Ok(outcomes) => ending.end(names, operations, outcomes),
            Err(fault) => Err(ending.give_up(fault)),
        }
    }

    /// Returns the writer, with this fault.
    pub(crate) fn give_up(self, fault: ImportFault) -> Unimported<W>
        ensures { result ≡ record { writer = self.writer.writer; fault = fault } }
    {
        let Importer { writer, .. } = self;
        Unimported {
            writer: writer.into_writer(),
            fault,
        }
    }
}
