ghost use Rattle.std.specs.Prelude.{◌≡◌, ◌≤◌, length, IfOk};
ghost use Rattle.cops_held.specs.Taking.{open_from};

use std::alloc::{AllocError, Global};

/// The indexes of the elements that are not marked, ascending. There are at most 65,536 marks.
pub(crate) fn open_places(alloc: Global, marks: &[bool]) -> Result<Vec<u16>, AllocError>
    requires { length marks.now ≤ 65536 }
    ensures { IfOk result (λ places. places.items ≡ open_from 0 marks.now) }
{
    let mut places = Vec::new(alloc);
    for (i, marked) in marks.iter().enumerate() {
        if !*marked {
            places.push(i as u16)?;
        }
    }
    Ok(places)
}
