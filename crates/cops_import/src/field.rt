//! The members of a line: names and values.
ghost use Rattle.std.specs.Prelude.{◌≡◌, ℕ, List, Err, IfOk};
ghost use Rattle.serde_json.specs.View.{view};
ghost use Rattle.cops_import.specs.Line.{GivesName, GivesValue};

use crate::name::Name;
use cops_json::{Unread, value};
use cops_types::{Format, Value};
use serde_json::Value as Json;
use std::alloc::Global;

/// The name of an object's client: a text, or the decimal digits of a whole number.
pub(crate) fn name_of(alloc: Global, object: &Json) -> Result<Name, Unread>
    ensures reported { IfOk result (GivesName (view object.now)) }
    ensures none { result ≡ Err Unread.Form → (name : List ℕ) → GivesName (view object.now) name → ⊥ }
{
    let json = object.get("client").ok_or(Unread::Form)?;
    if let Some(text) = json.as_str() {
        return Ok(Name::new(alloc, text.as_bytes())?);
    }
    let number = json.as_u64().ok_or(Unread::Form)?;
    let digits = format!(in alloc; "{number}")?;
    Ok(Name::new(alloc, digits.as_str().as_bytes())?)
}

/// The value of an object, a text of at most as many bytes as the format allows.
pub(crate) fn value_of(alloc: Global, format: Format, object: &Json) -> Result<Value, Unread>
    ensures reported { IfOk result (GivesValue format (view object.now)) }
    ensures none { result ≡ Err Unread.Form → (bytes : List ℕ) → GivesValue format (view object.now) bytes → ⊥ }
{
    value(alloc, format, object.get("value").ok_or(Unread::Form)?)
}
