//! Reading events and the operations of scripts: objects with one member, whose name says what happens.
ghost use Rattle.std.specs.Prelude.{◌≡◌, ◌≢◌, ◌≤◌, ℕ, List, [], ◌∷◌, length, map, codes, All, Err, IfOk, None, Some, OnErr};
ghost use Rattle.serde_json.specs.View.{view};
ghost use Rattle.cops_types.specs.Format.{Fits};
ghost use Rattle.cops_types.specs.KeyValue.{IsKey};
ghost use Rattle.cops_types.specs.Texts.{version_text};
ghost use Rattle.cops_types.specs.Version.{IsVersion};
ghost use Rattle.cops_core.specs.declared.event.Event.{Event as AnEvent};
ghost use Rattle.cops_json.specs.Json.{number_json, text_json};
ghost use Rattle.cops_scenario.specs.File.{event_json, op_json, list_json, kind_of, parts_of};
ghost use Rattle.cops_scenario.specs.declared.scenario.TheConstants.{MAX_CLIENT, MAX_DC, MAX_DEP};
ghost use Rattle.cops_scenario.specs.Limits.{IsLegalEvent, IsLegalOp};
ghost use Rattle.cops_scenario.specs.declared.script.ScriptOp.{ScriptOp as AnOp};

use crate::field::{client, dc, list, number, only_member};
use crate::scenario::MAX_DEP;
use crate::script::ScriptOp;
use cops_core::Event;
use cops_json::{Unread, key, value, version};
use cops_types::{Format, Key, Value, Version};
use serde_json::Value as Json;
use std::alloc::Global;

/// Reads a list of at most `most` events.
pub(crate) fn events(
    alloc: Global,
    format: Format,
    json: &Json,
    most: usize,
) -> Result<Vec<Event>, Unread>
    ensures few { IfOk result (λ events. length events.items ≤ most) }
    ensures json { IfOk result (λ events. view json.now ≡ list_json (map event_json events.items)) }
    ensures legal { IfOk result (λ events. All (IsLegalEvent format) events.items) }
    ensures none { result ≡ Err Unread.Form → (events : List AnEvent) → length events ≤ most → All (IsLegalEvent format) events → view json.now ≢ list_json (map event_json events) }
{
    let mut events = Vec::new(alloc);
    for item in list(json, most)? {
        events.push(event(alloc, format, item)?)?;
    }
    Ok(events)
}

/// Reads a script of at most `most` operations.
pub(crate) fn script(
    alloc: Global,
    format: Format,
    json: &Json,
    most: usize,
) -> Result<Vec<ScriptOp>, Unread>
    ensures few { IfOk result (λ script. length script.items ≤ most) }
    ensures json { IfOk result (λ script. view json.now ≡ list_json (map op_json script.items)) }
    ensures legal { IfOk result (λ script. All (IsLegalOp format) script.items) }
    ensures none { result ≡ Err Unread.Form → (ops : List AnOp) → length ops ≤ most → All (IsLegalOp format) ops → view json.now ≢ list_json (map op_json ops) }
{
    let mut script = Vec::new(alloc);
    for item in list(json, most)? {
        script.push(script_op(alloc, format, item)?)?;
    }
    Ok(script)
}

/// Reads an operation of a script.
fn script_op(alloc: Global, format: Format, json: &Json) -> Result<ScriptOp, Unread>
    ensures json { IfOk result (λ op. view json.now ≡ op_json op) }
    ensures legal { IfOk result (IsLegalOp format) }
    ensures none { result ≡ Err Unread.Form → (op : AnOp) → IsLegalOp format op → view json.now ≢ op_json op }
{
    let (name, of) = only_member(json)?;
    match name {
        "put" => {
            let (key, value) = pair(alloc, format, list(of, 2)?)?;
            Ok(ScriptOp::Put { key, value })
        }
        "del" if format.fits(None) => Ok(ScriptOp::Del {
            key: key(alloc, of)?,
        }),
        "get" => Ok(ScriptOp::Get {
            key: key(alloc, of)?,
        }),
        _ => Err(Unread::Form),
    }
}

/// Reads a key and a value of a format.
fn pair(alloc: Global, format: Format, parts: &[Json]) -> Result<(Key, Value), Unread>
    ensures json { IfOk result (λ p. map view parts.now ≡ text_json p.0 ∷ text_json p.1 ∷ []) }
    ensures legal { IfOk result (λ p. IsKey p.0 × Fits format (Some p.1)) }
    ensures none { result ≡ Err Unread.Form → (key value : List ℕ) → IsKey key → Fits format (Some value) → map view parts.now ≢ text_json key ∷ text_json value ∷ [] }
{
    match parts {
        [k, v] => Ok((key(alloc, k)?, value(alloc, format, v)?)),
        _ => Err(Unread::Form),
    }
}

/// Reads an event.
fn event(alloc: Global, format: Format, json: &Json) -> Result<Event, Unread>
    ensures json { IfOk result (λ event. view json.now ≡ event_json event) }
    ensures legal { IfOk result (IsLegalEvent format) }
    ensures none { result ≡ Err Unread.Form → (event : AnEvent) → IsLegalEvent format event → view json.now ≢ event_json event }
{
    let (name, of) = only_member(json)?;
    let parts = list(of, 3)?;
    match name {
        "put" => put(alloc, format, parts),
        "del" if format.fits(None) => del(alloc, format, parts),
        "get" => get(alloc, format, parts),
        "deliver" => {
            let (dc, version) = put_at(parts)?;
            Ok(Event::Deliver { dc, version })
        }
        "ask" => ask(alloc, format, parts),
        "mark" => mark(format, parts),
        "settle" => {
            let (dc, version) = put_at(parts)?;
            Ok(Event::Settle { dc, version })
        }
        _ => Err(Unread::Form),
    }
}

/// Reads a put: a client, a key and a value.
fn put(alloc: Global, format: Format, parts: &[Json]) -> Result<Event, Unread>
    ensures json { IfOk result (λ event. (kind_of event ≡ codes "put") × (parts_of event ≡ map view parts.now)) }
    ensures legal { IfOk result (IsLegalEvent format) }
    ensures none { result ≡ Err Unread.Form → (client : ℕ) (key value : List ℕ) → client ≤ MAX_CLIENT → IsKey key → Fits format (Some value) → map view parts.now ≢ number_json client ∷ text_json key ∷ text_json value ∷ [] }
{
    match parts {
        [c, k, v] => Ok(Event::Put {
            client: client(c)?,
            key: key(alloc, k)?,
            value: value(alloc, format, v)?,
        }),
        _ => Err(Unread::Form),
    }
}

/// Reads a deletion: a client and a key.
fn del(alloc: Global, format: Format, parts: &[Json]) -> Result<Event, Unread>
    requires { Fits format None }
    ensures json { IfOk result (λ event. (kind_of event ≡ codes "del") × (parts_of event ≡ map view parts.now)) }
    ensures legal { IfOk result (IsLegalEvent format) }
    ensures none { result ≡ Err Unread.Form → (client : ℕ) (key : List ℕ) → client ≤ MAX_CLIENT → IsKey key → map view parts.now ≢ number_json client ∷ text_json key ∷ [] }
{
    let _format = format;
    match parts {
        [c, k] => Ok(Event::Del {
            client: client(c)?,
            key: key(alloc, k)?,
        }),
        _ => Err(Unread::Form),
    }
}

/// Reads a get: a client and a key.
fn get(alloc: Global, _format: Format, parts: &[Json]) -> Result<Event, Unread>
    ensures json { IfOk result (λ event. (kind_of event ≡ codes "get") × (parts_of event ≡ map view parts.now)) }
    ensures legal { IfOk result (IsLegalEvent _format) }
    ensures none { result ≡ Err Unread.Form → (client : ℕ) (key : List ℕ) → client ≤ MAX_CLIENT → IsKey key → map view parts.now ≢ number_json client ∷ text_json key ∷ [] }
{
    match parts {
        [c, k] => Ok(Event::Get {
            client: client(c)?,
            key: key(alloc, k)?,
        }),
        _ => Err(Unread::Form),
    }
}

/// Reads a data centre, and the version of a put.
fn put_at(parts: &[Json]) -> Result<(u8, Version), Unread>
    ensures json { IfOk result (λ p. map view parts.now ≡ number_json p.0 ∷ text_json (version_text p.1) ∷ []) }
    ensures legal { IfOk result (λ p. (p.0 ≤ MAX_DC) × IsVersion p.1) }
    ensures none { OnErr result ((dc version : ℕ) → dc ≤ MAX_DC → IsVersion version → map view parts.now ≢ number_json dc ∷ text_json (version_text version) ∷ []) }
{
    match parts {
        [d, v] => Ok((dc(d)?, version(v)?)),
        _ => Err(Unread::Form),
    }
}

/// Reads an ask: a data centre, a key and a version.
fn ask(alloc: Global, _format: Format, parts: &[Json]) -> Result<Event, Unread>
    ensures json { IfOk result (λ event. (kind_of event ≡ codes "ask") × (parts_of event ≡ map view parts.now)) }
    ensures legal { IfOk result (IsLegalEvent _format) }
    ensures none { result ≡ Err Unread.Form → (dc : ℕ) (key : List ℕ) (version : ℕ) → dc ≤ MAX_DC → IsKey key → IsVersion version → map view parts.now ≢ number_json dc ∷ text_json key ∷ text_json (version_text version) ∷ [] }
{
    match parts {
        [d, k, v] => Ok(Event::Ask {
            dc: dc(d)?,
            key: key(alloc, k)?,
            version: version(v)?,
        }),
        _ => Err(Unread::Form),
    }
}

/// Reads a mark: a data centre, the version of a put and a dependency's index.
fn mark(_format: Format, parts: &[Json]) -> Result<Event, Unread>
    ensures json { IfOk result (λ event. (kind_of event ≡ codes "mark") × (parts_of event ≡ map view parts.now)) }
    ensures legal { IfOk result (IsLegalEvent _format) }
    ensures none { result ≡ Err Unread.Form → (dc version dep : ℕ) → dc ≤ MAX_DC → IsVersion version → dep ≤ MAX_DEP → map view parts.now ≢ number_json dc ∷ text_json (version_text version) ∷ number_json dep ∷ [] }
{
    match parts {
        [d, v, n] => Ok(Event::Mark {
            dc: dc(d)?,
            version: version(v)?,
            dep: number(n, 0, u64::from(MAX_DEP))? as u16,
        }),
        _ => Err(Unread::Form),
    }
}
