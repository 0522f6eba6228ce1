//! Reading texts as keys, values and versions.
ghost use Rattle.std.specs.Prelude.{◌≡◌, ◌≢◌, ◌<◌, ◌^◌, ℕ, List, decimal, Err, Some, IfOk, OnErr};
ghost use Rattle.serde_json.specs.View.{view};
ghost use Rattle.cops_types.specs.KeyValue.{IsKey};
ghost use Rattle.cops_types.specs.Format.{Fits};
ghost use Rattle.cops_types.specs.Texts.{version_text};
ghost use Rattle.cops_types.specs.Version.{IsVersion};
ghost use Rattle.cops_json.specs.Json.{text_json};

use crate::unread::Unread;
use cops_types::{Format, Key, Value, Version};
use serde_json::Value as Json;
use std::alloc::Global;

/// Reads a text as a key. Errors: `Form` if the value is no text of 1 to 64 bytes, `Memory` if memory runs out.
pub fn key(alloc: Global, json: &Json) -> Result<Key, Unread>
    ensures json { IfOk result (λ bytes. view json.now ≡ text_json bytes) }
    ensures legal { IfOk result IsKey }
    ensures none { result ≡ Err Unread.Form → (bytes : List ℕ) → IsKey bytes → view json.now ≢ text_json bytes }
{
    let text = json.as_str().ok_or(Unread::Form)?;
    Ok(Key::new(alloc, text.as_bytes())?)
}

/// Reads a text as a value of a format. Errors: `Form` if the JSON value is no text of at most as many bytes as the
/// format allows (4,096 in format 1, 16,384 in format 2), `Memory` if memory runs out.
pub fn value(alloc: Global, format: Format, json: &Json) -> Result<Value, Unread>
    ensures json { IfOk result (λ bytes. view json.now ≡ text_json bytes) }
    ensures legal { IfOk result (λ bytes. Fits format (Some bytes)) }
    ensures none { result ≡ Err Unread.Form → (bytes : List ℕ) → Fits format (Some bytes) → view json.now ≢ text_json bytes }
{
    let text = json.as_str().ok_or(Unread::Form)?;
    Ok(Value::new_in(format, alloc, text.as_bytes())?)
}

/// Reads a text as a version: a clock, a dot and a node, each decimal without leading zeros. Allocates nothing. Fails
/// with `Form` if the value is no such text, or the numbers are not those of a version.
pub fn version(json: &Json) -> Result<Version, Unread>
    ensures json { IfOk result (λ version. view json.now ≡ text_json (version_text version)) }
    ensures legal { IfOk result IsVersion }
    ensures none { OnErr result ((version : ℕ) → IsVersion version → view json.now ≢ text_json (version_text version)) }
{
    let text = json.as_str().ok_or(Unread::Form)?;
    let (clock, node) = text.split_once('.').ok_or(Unread::Form)?;
    let node = u16::try_from(decimal(node)?).or(Err(Unread::Form))?;
    Ok(Version::new(decimal(clock)?, node)?)
}

/// Reads a decimal number, which has only digits and no leading zeros.
fn decimal(text: &str) -> Result<u64, Unread>
    ensures text { IfOk result (λ n. text.now ≡ decimal n) }
    ensures none { OnErr result ((n : ℕ) → n < 2 ^ 64 → text.now ≢ decimal n) }
{
    let digits = text.as_bytes();
    if digits.is_empty() || digits[0] == b'+' {
        return Err(Unread::Form);
    }
    if digits[0] == b'0' && digits.len() > 1 {
        return Err(Unread::Form);
    }
    match text.parse::<u64>() {
        Ok(n) => Ok(n),
        Err(_) => Err(Unread::Form),
    }
}
