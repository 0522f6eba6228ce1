ghost use Rattle.std.specs.Prelude.{◌≡◌, IfOk};

use cops_types::{Key, TypeFault, Value};
use std::alloc::Global;

/// A key and a value of these bytes. The errors are those of `Key::new` and `Value::new`.
pub fn pair(alloc: Global, key: &[u8], value: &[u8]) -> Result<(Key, Value), TypeFault>
    ensures { IfOk result (λ pair. (pair.0 ≡ key.now) × (pair.1 ≡ value.now)) }
{
    let key = Key::new(alloc, key)?;
    match Value::new(alloc, value) {
        Ok(value) => Ok((key, value)),
        Err(fault) => {
            drop(key);
            Err(fault)
        }
    }
}
