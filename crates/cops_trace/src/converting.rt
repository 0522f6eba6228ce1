//! Traces of either format, written again in format 2.
ghost use Rattle.std.specs.Prelude.{◌≡◌, ◌⊎◌, length, Ok, Err, IfOk, IfErr, IfSome, IsErrOf, OnOk};
ghost use Rattle.std.specs.Io.KnownBytes.{Appends};
ghost use Rattle.cops_types.specs.Failures.{Failed};
ghost use Rattle.cops_types.specs.Counted.{failures, inner};
ghost use Rattle.cops_trace.specs.declared.fault.TraceFault.{TraceFault as AFault};
ghost use Rattle.cops_trace.specs.Text.{ATrace, text};
ghost use Rattle.cops_trace.specs.Converting.{Converts, HasHeard, IsFaultOf, IsLeftAt, IsUnwrittenAt, SayOne, fault_of_reading, in_format_2};

use crate::fault::{ConvertFault, TraceFault, WriteFault};
use crate::reading::read_trace;
use crate::trace::Trace;
use crate::writing::write_trace;
use cops_types::Counted;
use std::alloc::Global;
use std::io::{Read, Write};

/// The fault of the conversion for a fault of reading.
fn fault_of_reading(fault: TraceFault) -> ConvertFault
    ensures { result ≡ fault_of_reading fault }
{
    match fault {
        TraceFault::Memory => ConvertFault::Memory,
        TraceFault::ReadFailed => ConvertFault::ReadFailed,
        fault => ConvertFault::Faulty(fault),
    }
}

/// The trace that was read, in format 2.
fn in_format_2(read: Result<Trace, TraceFault>) -> Result<Trace, ConvertFault>
    ensures ok { IfOk result (λ new. (t : ATrace) × (read ≡ Ok t) × (new ≡ in_format_2 t)) }
    ensures err { IfErr result (λ e. (fault : AFault) × (read ≡ Err fault) × (e ≡ fault_of_reading fault)) }
{
    match read {
        Ok(trace) => Ok(trace.into_format_2()),
        Err(fault) => Err(fault_of_reading(fault)),
    }
}

/// Writes a trace, and returns the number of its operations.
fn write_counted<W: Write>(
    alloc: Global,
    writer: &mut Counted<W>,
    trace: &Trace,
) -> Result<u32, ConvertFault>
    ensures ok { IfOk result (λ count. (count ≡ length trace.now.records) × Appends (W.contents (inner writer.old)) (W.contents (inner writer.new)) (text trace.now)) }
    ensures left { IfErr result (λ e. IsUnwrittenAt trace.now e (W.contents (inner writer.old)) (W.contents (inner writer.new))) }
    ensures heard { IfErr result (λ e. HasHeard e (failures writer.old) (failures writer.new)) }
    ensures written { OnOk result (failures writer.new ≡ failures writer.old) }
{
    match write_trace(alloc, writer, trace) {
        Ok(()) => Ok(trace.len() as u32),
        Err(WriteFault::Memory) => Err(ConvertFault::Memory),
        Err(WriteFault::WriteFailed { written }) => Err(ConvertFault::WriteFailed { written }),
    }
}

/// Reads a trace of either format, writes one of format 2 with the same clients and operations, and returns the number
/// of operations. Only with `WriteFailed` was anything written: the first bytes of the new trace. A failed read or
/// write is not tried again.
///
/// Errors: `Memory` if memory runs out, `Faulty` if the bytes are no trace, `ReadFailed` if a read fails, and
/// `WriteFailed` if a write fails.
pub fn convert<R: Read, W: Write>(
    alloc: Global,
    reader: &mut Counted<R>,
    writer: &mut Counted<W>,
) -> Result<u32, ConvertFault>
    ensures ok { IfOk result (λ count. IfSome (R.remaining (inner reader.old)) (λ bytes.
        Converts bytes count (W.contents (inner writer.old)) (W.contents (inner writer.new)))) }
    ensures one { IfOk result (λ _. IfSome (R.remaining (inner reader.old)) SayOne) }
    ensures faulty { IfErr result (λ e. IfSome (R.remaining (inner reader.old)) (λ bytes. IsFaultOf bytes e)) }
    ensures left { IfErr result (λ e. IsLeftAt (R.remaining (inner reader.old)) e (W.contents (inner writer.old)) (W.contents (inner writer.new))) }
    ensures read_failed { IsErrOf result ConvertFault.ReadFailed → Failed (failures reader.old) (failures reader.new) }
    ensures read_heard { IsErrOf result ConvertFault.ReadFailed ⊎ (failures reader.new ≡ failures reader.old) }
    ensures write_heard { IfErr result (λ e. HasHeard e (failures writer.old) (failures writer.new)) }
    ensures written { OnOk result (failures writer.new ≡ failures writer.old) }
{
    let trace = in_format_2(read_trace(alloc, reader))?;
    let written = write_counted(alloc, writer, &trace);
    drop(trace);
    written
}
