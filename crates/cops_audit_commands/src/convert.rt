//! The conversion of a trace's bytes to format 2.
ghost use Rattle.std.specs.Prelude.{◌≡◌, ◌⊎◌, IfOk, IfErr, IfSome, IsErrOf, OnOk, string_bytes};
ghost use Rattle.cops_types.specs.Failures.{Failed};
ghost use Rattle.cops_types.specs.Counted.{failures, inner};
ghost use Rattle.cops_trace.specs.Converting.{HasHeard, IsFaultOf, IsLeftAt};
ghost use Rattle.cops_audit_commands.specs.Convert.{ConvertsAlike, converted_line};

use cops_trace::{ConvertFault, convert};
use cops_types::Counted;
use std::alloc::{AllocError, Global};
use std::io::{Read, Write};

/// Converts as `cops_trace::convert` does, with its errors. The audit of the new trace has the same answer and text as
/// that of the one that was read.
pub fn convert_stream<R: Read, W: Write>(
    alloc: Global,
    reader: &mut Counted<R>,
    writer: &mut Counted<W>,
) -> Result<u32, ConvertFault>
    ensures ok { IfOk result (λ count. IfSome (R.remaining (inner reader.old)) (λ bytes.
        ConvertsAlike bytes count (W.contents (inner writer.old)) (W.contents (inner writer.new)))) }
    ensures faulty { IfErr result (λ e. IfSome (R.remaining (inner reader.old)) (λ bytes. IsFaultOf bytes e)) }
    ensures left { IfErr result (λ e. IsLeftAt (R.remaining (inner reader.old)) e (W.contents (inner writer.old)) (W.contents (inner writer.new))) }
    ensures read_failed { IsErrOf result ConvertFault.ReadFailed → Failed (failures reader.old) (failures reader.new) }
    ensures read_heard { IsErrOf result ConvertFault.ReadFailed ⊎ (failures reader.new ≡ failures reader.old) }
    ensures write_heard { IfErr result (λ e. HasHeard e (failures writer.old) (failures writer.new)) }
    ensures written { OnOk result (failures writer.new ≡ failures writer.old) }
{
    convert(alloc, reader, writer)
}

/// The line that says how many operations were converted. The only error is `AllocError`, where memory runs out.
pub fn converted_line(alloc: Global, operations: u32) -> Result<String, AllocError>
    ensures { IfOk result (λ line. string_bytes line ≡ converted_line operations) }
{
    format!(in alloc; "converted: {operations} operations\n")
}
