ghost use Rattle.std.specs.Prelude.{◌≡◌, ◌⊎◌, [], None, Some, Ok, IsOk, IfOk, IfSome, OnSome};
ghost use Rattle.std.specs.Io.KnownBytes.{IsAtEnd};
ghost use Rattle.cops_types.specs.Failures.{Failed};
ghost use Rattle.cops_types.specs.Counted.{failures, inner};

use cops_types::{Counted, Memory};
use std::alloc::Global;
use std::io::Read;

/// How many bytes are read or fed at once.
pub const PIECE: usize = 4096;

/// All that a reader has left, or `None` where a read failed, which is not tried again. The only error is `Memory`,
/// where memory runs out; where nothing is left it allocates nothing.
pub fn read_all<R: Read>(alloc: Global, reader: &mut Counted<R>) -> Result<Option<Vec<u8>>, Memory>
    ensures all { IfOk result (λ read. IfSome read (λ bytes. IfSome (R.remaining (inner reader.old)) (λ all. bytes.items ≡ all))) }
    ensures end { IfOk result (λ read. OnSome read (IsAtEnd (R.remaining (inner reader.new)))) }
    ensures failed { result ≡ Ok None → Failed (failures reader.old) (failures reader.new) }
    ensures heard { (result ≡ Ok None) ⊎ (failures reader.new ≡ failures reader.old) }
    ensures empty { R.remaining (inner reader.old) ≡ Some [] → IsOk result }
{
    let mut bytes = Vec::new(alloc);
    let mut piece = [0u8; PIECE];
    loop {
        let count = match reader.read(&mut piece) {
            Ok(count) => count,
            Err(_) => return Ok(None),
        };
        if count == 0 {
            return Ok(Some(bytes));
        }
        bytes.extend_from_slice(&piece[..count])?;
    }
}
