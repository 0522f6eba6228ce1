//! Reading the parts of a scenario's fields other than keys, values and versions: numbers, and lists of limited length.
ghost use Rattle.std.specs.Prelude.{◌≡◌, ◌≢◌, ◌≤◌, ℕ, List, length, map, Some, Err, IfOk, OnErr, option_and_then};
ghost use Rattle.serde_json.specs.Data.{Data};
ghost use Rattle.serde_json.specs.Find.{as_number, as_u64};
ghost use Rattle.serde_json.specs.View.{view};
ghost use Rattle.cops_scenario.specs.declared.scenario.TheConstants.{MAX_CLIENT, MAX_DC};
ghost use Rattle.cops_json.specs.Json.{number_json};
ghost use Rattle.cops_scenario.specs.File.{list_json, one_json, IsNoNumber};

use crate::scenario::{MAX_CLIENT, MAX_DC};
use cops_json::Unread;
use serde_json::Value as Json;

/// Reads a whole number within a range.
pub(crate) fn number(json: &Json, least: u64, most: u64) -> Result<u64, Unread>
    ensures value { IfOk result (λ n. Some n ≡ option_and_then as_u64 (as_number (view json.now))) }
    ensures range { IfOk result (λ n. (least ≤ n) × (n ≤ most)) }
    ensures json { IfOk result (λ n. view json.now ≡ number_json n) }
    ensures form { OnErr result (result ≡ Err Unread.Form) }
    ensures none { OnErr result (IsNoNumber least most (Some (view json.now))) }
{
    match json.as_u64() {
        Some(n) if least <= n && n <= most => Ok(n),
        _ => Err(Unread::Form),
    }
}

/// Reads a list of at most `most` items.
pub(crate) fn list(json: &Json, most: usize) -> Result<&[Json], Unread>
    ensures few { IfOk result (λ items. length items.now ≤ most) }
    ensures json { IfOk result (λ items. view json.now ≡ list_json (map view items.now)) }
    ensures form { OnErr result (result ≡ Err Unread.Form) }
    ensures none { OnErr result ((items : List Data) → length items ≤ most → view json.now ≢ list_json items) }
{
    let items = json.as_array().ok_or(Unread::Form)?;
    if items.len() > most {
        return Err(Unread::Form);
    }
    Ok(items.as_slice())
}

/// Reads the name and the value of an object's only member.
pub(crate) fn only_member(json: &Json) -> Result<(&str, &Json), Unread>
    ensures json { IfOk result (λ m. view json.now ≡ one_json m.0.now (view m.1.now)) }
    ensures none { OnErr result ((name : List ℕ) (of : Data) → view json.now ≢ one_json name of) }
{
    let members = json.as_object().ok_or(Unread::Form)?;
    if members.len() != 1 {
        return Err(Unread::Form);
    }
    let (name, value) = members.iter().next().ok_or(Unread::Form)?;
    Ok((name.as_str(), value))
}

/// Reads a client's number.
pub(crate) fn client(json: &Json) -> Result<u16, Unread>
    ensures json { IfOk result (λ n. view json.now ≡ number_json n) }
    ensures range { IfOk result (λ n. n ≤ MAX_CLIENT) }
    ensures none { OnErr result (IsNoNumber 0 MAX_CLIENT (Some (view json.now))) }
{
    Ok(number(json, 0, u64::from(MAX_CLIENT))? as u16)
}

/// Reads a data centre's number, whether or not the data centre exists.
pub(crate) fn dc(json: &Json) -> Result<u8, Unread>
    ensures json { IfOk result (λ n. view json.now ≡ number_json n) }
    ensures range { IfOk result (λ n. n ≤ MAX_DC) }
    ensures none { OnErr result (IsNoNumber 0 MAX_DC (Some (view json.now))) }
{
    Ok(number(json, 0, u64::from(MAX_DC))? as u8)
}
