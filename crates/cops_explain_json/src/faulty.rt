ghost use Rattle.std.specs.Prelude.{◌≡◌, IfOk, OnOk};
ghost use Rattle.cops_explain_json.specs.Faulty.{at_line, faulty_json};
ghost use Rattle.cops_explain_json.specs.Objects.{line_text, members_in, with_members};

use crate::object::{Object, line_of};
use std::alloc::{AllocError, Global};

/// Adds the number of the line at fault, if it has one.
fn add_line(object: &mut Object, line: Option<u64>) -> Result<(), AllocError>
    ensures { OnOk result (members_in object.new ≡ with_members (members_in object.old) (at_line line)) }
{
    match line {
        Some(line) => object.add_number("line", line),
        None => Ok(()),
    }
}

/// Why bytes are no trace, for programs: one JSON object in a line that ends with a line feed. It has the verdict
/// `faulty`, the fault, and the number of the line at fault, if it has one. The only error is `AllocError`, where
/// memory runs out.
pub fn faulty_json(alloc: Global, why: &str, line: Option<u64>) -> Result<Vec<u8>, AllocError>
    ensures { IfOk result (λ text. text.items ≡ line_text (faulty_json why.now line)) }
{
    let mut object = Object::new(alloc);
    object.add_text("verdict", "faulty")?;
    object.add_text("fault", why)?;
    add_line(&mut object, line)?;
    line_of(alloc, &object.into_json())
}
