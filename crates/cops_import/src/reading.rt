//! Importing a text of lines.
ghost use Rattle.std.specs.Prelude.{◌≡◌, ◌+◌, [], length, IfErr, IfOk, IfSome, OnOk};
ghost use Rattle.cops_types.specs.declared.counted.Counted.{Counted as ACounted};
ghost use Rattle.cops_types.specs.Counted.{failures, inner};
ghost use Rattle.cops_import.specs.Faults.{IsCutBy, IsFaultOf, IsHeardBy, IsReadBy};
ghost use Rattle.cops_import.specs.Imports.{IsImport};
ghost use Rattle.cops_import.specs.Outcomes.{took_effect};
ghost use Rattle.cops_import.specs.Underway.{HasLeft, HasReadAll, IsUnderway, expected_of, rules_of};

use crate::fault::ImportFault;
use crate::imported::{Imported, Unimported};
use crate::importer::Importer;
use crate::rules::{Expected, Rules};
use cops_types::Counted;
use std::alloc::Global;
use std::io::{Read, Write};

/// The number of bytes asked for in one read.
pub(crate) const PIECE: usize = 65_536;

/// The most reads.
pub(crate) const READS: u64 = 1 << 40;

/// Writes the trace that JSON Lines describe: one operation a line, in the order of each client, with the members that
/// README.md lists, read as the rules say. A put of unknown outcome takes effect if a get returned it; its record comes
/// after all others, as that of a client of its own. The import keeps the rules, the names, the number of operations of
/// each client, and one line in memory, and if there are puts of unknown outcome, these, the versions of all puts, and
/// those with which gets returned them. On `Ok` the text is whole; on `Err` it is cut. A failed read or write is not
/// tried again.
///
/// Errors: `Memory` if memory runs out, `ReadFailed` and `WriteFailed` if a read or a write fails, `Line` with the
/// number, from 1, of the first wrong line, `Changed` if the lines are not as expected or a version has no rank,
/// `Endless` if they do not end within 2^40 reads or there are 2^64 of them.
pub fn import_stream<R: Read, W: Write>(
    alloc: Global,
    rules: Rules,
    expected: Expected,
    lines: &mut Counted<R>,
    trace: Counted<W>,
) -> Result<Imported<W>, Unimported<W>>
    ensures ok { IfOk result (λ done. IfSome (R.remaining (inner lines.old)) (λ bytes.
        IsImport rules bytes (W.contents (inner trace)) (W.contents (inner done.writer)) done.names done.unknown.items done.operations)) }
    ensures clients { IfOk result (λ done. length done.names + length (took_effect done.unknown.items) ≡ expected.clients) }
    ensures fault { IfErr result (λ u. IfSome (R.remaining (inner lines.old)) (λ bytes. IsFaultOf rules expected bytes u.fault)) }
    ensures cut { IfErr result (λ u. IsCutBy u.fault (W.contents (inner trace)) (W.contents (inner u.writer))) }
    ensures heard { IfOk result (λ done. (failures done.writer ≡ failures trace) × (failures lines.new ≡ failures lines.old)) }
    ensures write { IfErr result (λ u. IsHeardBy u.fault (failures trace) (failures u.writer)) }
    ensures read { IfErr result (λ u. IsReadBy u.fault (failures lines.old) (failures lines.new)) }
{
    let mut importer = match Importer::new(alloc, trace, rules, expected) {
        Ok(importer) => importer,
        Err(unimported) => return Err(unimported),
    };
    match read_lines(&mut importer, lines) {
        Ok(()) => importer.finish(),
        Err(fault) => Err(importer.give_up(fault)),
    }
}

/// Reads the bytes of all lines. The last line is not yet taken.
fn read_lines<R: Read, W: Write>(
    importer: &mut Importer<W>,
    lines: &mut Counted<R>,
) -> Result<(), ImportFault>
    ensures ok { OnOk result ((from : ACounted W) → IsUnderway W.contents from [] importer.old → HasReadAll W.contents from (R.remaining (inner lines.old)) importer.new) }
    ensures err { IfErr result (λ e. (from : ACounted W) → IsUnderway W.contents from [] importer.old → HasLeft W.contents from e importer.new.writer.writer) }
    ensures fault { IfErr result (λ e. (from : ACounted W) → IsUnderway W.contents from [] importer.old → IfSome (R.remaining (inner lines.old)) (λ bytes. IsFaultOf (rules_of importer.old) (expected_of importer.old) bytes e)) }
    ensures heard { OnOk result (failures lines.new ≡ failures lines.old) }
    ensures read { IfErr result (λ e. IsReadBy e (failures lines.old) (failures lines.new)) }
    ensures expected { expected_of importer.new ≡ expected_of importer.old }
    ensures rules { OnOk result (rules_of importer.new ≡ rules_of importer.old) }
{
    let mut piece = [0u8; PIECE];
    for _ in 0..READS {
        let count = match lines.read(&mut piece) {
            Ok(count) => count,
            Err(_) => return Err(ImportFault::ReadFailed),
        };
        if count == 0 {
            return Ok(());
        }
        match importer.take_piece(&piece[..count]) {
            Ok(()) => {}
            Err(fault) => return Err(fault),
        }
    }
    Err(ImportFault::Endless)
}
