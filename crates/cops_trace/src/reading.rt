//! Reading a trace from a reader.
ghost use Rattle.std.specs.Prelude.{◌≡◌, ◌≢◌, ◌⊎◌, ℕ, ◌<◌, Result, Ok, IfOk, IfErr, IfSome, IsErrOf};
ghost use Rattle.cops_types.specs.Failures.{Failed};
ghost use Rattle.cops_types.specs.Counted.{failures, inner};
ghost use Rattle.cops_trace.specs.declared.fault.TraceFault.{TraceFault as AFault};
ghost use Rattle.cops_wire.specs.Answer.{IsBytes};
ghost use Rattle.cops_trace.specs.Text.{ATrace};
ghost use Rattle.cops_trace.specs.Answer.{Says, Agrees, AgreesInto, AgreesSoFar, Gives, HasFault};
ghost use Rattle.cops_trace.specs.Parsing.{SettledInto};

use crate::fault::TraceFault;
use crate::parser::Parser;
use crate::sink::{Sink, SinkTaken};
use crate::trace::{Partial, Trace};
use cops_types::{Counted, Memory};
use std::alloc::Global;
use std::io::Read;

/// The number of bytes asked for in one read.
const PIECE: usize = 65_536;

/// The most reads. A text has a fault or an end before this number of bytes.
const READS: u64 = 1 << 41;

/// Reads to the end of the input, or to the first fault. A failed read is not tried again.
fn read_items<S: Sink, R: Read>(
    alloc: Global,
    reader: &mut Counted<R>,
) -> Result<Parser<S>, TraceFault>
    ensures ok { IfOk result (λ parser. IfSome (R.remaining (inner reader.old)) (λ bytes. SettledInto S.took bytes parser.begun parser.reader)) }
    ensures err { IfErr result (λ e. (e ≡ TraceFault.Memory) ⊎ (e ≡ TraceFault.ReadFailed) ⊎ IfSome (R.remaining (inner reader.old)) (λ bytes. HasFault bytes e)) }
    ensures no_cut { IfErr result (λ e. (offset : ℕ) → e ≢ TraceFault.Cut offset) }
    ensures failed { IsErrOf result TraceFault.ReadFailed → Failed (failures reader.old) (failures reader.new) }
    ensures heard { IsErrOf result TraceFault.ReadFailed ⊎ (failures reader.new ≡ failures reader.old) }
{
    let mut parser = Parser::new(alloc);
    let mut piece = [0u8; PIECE];
    for _ in 0..READS {
        let count = match reader.read(&mut piece) {
            Ok(count) => count,
            Err(_) => return Err(TraceFault::ReadFailed),
        };
        if count == 0 {
            return Ok(parser);
        }
        parser.take_piece(&piece[..count])?;
    }
    Err(TraceFault::TooLong {
        offset: parser.at(),
    })
}

/// Reads a trace's text from a reader and gives its records to a sink as they come, keeping nothing else of it. Returns
/// the sink that took the whole records, and the offset of the cut if the text is cut. If the head is cut, the sink
/// took a head with no clients. Each other fault is as in `read_trace`.
pub fn read_into<S: Sink, R: Read>(
    alloc: Global,
    reader: &mut Counted<R>,
) -> Result<SinkTaken<S>, TraceFault>
    ensures says { IfSome (R.remaining (inner reader.old)) (λ bytes. AgreesInto S.took bytes result) }
    ensures failed { IsErrOf result TraceFault.ReadFailed → Failed (failures reader.old) (failures reader.new) }
    ensures heard { IsErrOf result TraceFault.ReadFailed ⊎ (failures reader.new ≡ failures reader.old) }
{
    let parser = read_items::<S, R>(alloc, reader)?;
    match parser.closed() {
        Ok(taken) => Ok(taken),
        Err(Memory) => Err(TraceFault::Memory),
    }
}

/// Reads a trace's text from a reader. Fails with the text's first fault, with `ReadFailed` if a read fails, and with
/// `Memory` if memory runs out.
pub fn read_trace<R: Read>(alloc: Global, reader: &mut Counted<R>) -> Result<Trace, TraceFault>
    ensures says { IfSome (R.remaining (inner reader.old)) (λ bytes. Agrees bytes result) }
    // Bytes are the text of only one trace, or have only one first fault.
    ensures only { IfSome (R.remaining (inner reader.old)) (λ bytes. IsBytes bytes → (a : Result ATrace AFault) → Says bytes a → Gives a result) }
    ensures one { IfOk result (λ trace. IfSome (R.remaining (inner reader.old)) (λ bytes. (a : Result ATrace AFault) → Says bytes a → a ≡ Ok trace)) }
    ensures failed { IsErrOf result TraceFault.ReadFailed → Failed (failures reader.old) (failures reader.new) }
    ensures heard { IsErrOf result TraceFault.ReadFailed ⊎ (failures reader.new ≡ failures reader.old) }
{
    let taken = read_into::<Trace, R>(alloc, reader)?;
    match taken.cut {
        None => Ok(taken.sink),
        Some(offset) => Err(TraceFault::Cut { offset }),
    }
}

/// Reads the whole records before a cut, and the offset of the cut. A whole text gives all its records and no offset.
/// If the head is cut, there are no clients and no records. Each other fault is as in `read_trace`.
pub fn read_so_far<R: Read>(alloc: Global, reader: &mut Counted<R>) -> Result<Partial, TraceFault>
    ensures says { IfSome (R.remaining (inner reader.old)) (λ bytes. AgreesSoFar bytes result) }
    ensures failed { IsErrOf result TraceFault.ReadFailed → Failed (failures reader.old) (failures reader.new) }
    ensures heard { IsErrOf result TraceFault.ReadFailed ⊎ (failures reader.new ≡ failures reader.old) }
{
    let taken = read_into::<Trace, R>(alloc, reader)?;
    Ok(Partial {
        trace: taken.sink,
        cut: taken.cut,
    })
}
