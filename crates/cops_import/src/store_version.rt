//! Versions of other stores, which their ranks stand for in a trace.
ghost use Rattle.std.specs.Prelude.{◌≡◌, ◌≢◌, ℕ, List, Err, IfOk};
ghost use Rattle.serde_json.specs.View.{view};
ghost use Rattle.cops_import.specs.Stores.{AStoreVersion, pair, store_json, stored};

use cops_json::Unread;
use serde_json::Value as Json;
use smallvec::SmallVec;
use std::alloc::Global;

/// The bytes of a text. Those of up to 16 bytes are stored inline.
pub(crate) type Text = SmallVec<u8, 16>;

/// A version of another store: a whole number below 2^64, a text, or a pair of these.
#[derive(Debug, Drop)]
pub(crate) enum StoreVersion {
    Number(u64),
    Text(Text),
    Pair((u64, Text)),
}

/// Reads a JSON value as a version of another store. Errors: `Form` if it is none, `Memory` if memory runs out.
pub(crate) fn store_version(alloc: Global, json: &Json) -> Result<StoreVersion, Unread>
    ensures json { IfOk result (λ version. view json.now ≡ store_json (stored version)) }
    ensures none { result ≡ Err Unread.Form → (version : AStoreVersion) → view json.now ≢ store_json version }
{
    if let Some(number) = json.as_u64() {
        return Ok(StoreVersion::Number(number));
    }
    if let Some(text) = json.as_str() {
        let text = SmallVec::from_slice(alloc, text.as_bytes())?;
        return Ok(StoreVersion::Text(text));
    }
    Ok(StoreVersion::Pair(number_and_text(alloc, json)?))
}

/// Reads a list of a whole number and a text.
fn number_and_text(alloc: Global, json: &Json) -> Result<(u64, Text), Unread>
    ensures json { IfOk result (λ p. view json.now ≡ store_json (pair p.0 p.1.items)) }
    ensures none { result ≡ Err Unread.Form → (n : ℕ) (bytes : List ℕ) → view json.now ≢ store_json (pair n bytes) }
{
    let items = json.as_array().ok_or(Unread::Form)?;
    if items.len() != 2 {
        return Err(Unread::Form);
    }
    let number = items[0].as_u64().ok_or(Unread::Form)?;
    let text = items[1].as_str().ok_or(Unread::Form)?;
    Ok((number, SmallVec::from_slice(alloc, text.as_bytes())?))
}
