//! Reading a scenario from its JSON text.
ghost use Rattle.std.specs.Prelude.{◌≡◌, ◌≢◌, ◌≤◌, ◌<◌, List, [], ℕ, length, map, codes, All, Option, None, Some, Err, IfOk, IfSome, OnOk, OnErr, IsSome, option_map};
ghost use Rattle.std.specs.Bool.{OnFalse, OnTrue};
ghost use Rattle.serde_json.specs.Data.{Data};
ghost use Rattle.serde_json.specs.View.{view};
ghost use Rattle.cops_json.specs.Json.{text_json};
ghost use Rattle.cops_scenario.specs.File.{list_json, AreRightBefore, AreUnscripted, IsListOrMissing, GivesClient, GiveClients, GivesEvents, GivesNumberAt, GivesScenario, IsRightNumber, IsWrongNumber, IsWrong};
ghost use Rattle.cops_scenario.specs.declared.fault.Field.{Field as AField};
ghost use Rattle.serde_json.specs.Find.{get};
ghost use Rattle.cops_types.specs.declared.limits.TheConstants.{MAX_DCS};
ghost use Rattle.cops_scenario.specs.declared.scenario.TheConstants.{MAX_CLIENTS, MAX_EVENTS};
ghost use Rattle.cops_scenario.specs.Fields.{format_at, number_at, range_of};
ghost use Rattle.cops_types.specs.Format.{number_of as number_in};
ghost use Rattle.cops_scenario.specs.Limits.{AreLegalEvents, AreSplits, IsClientOf, IsLegalClient, IsLegalScenario};
ghost use Rattle.cops_core.specs.declared.event.Event.{Event as AnEvent};
ghost use Rattle.cops_scenario.specs.declared.script.ScriptedClient.{ScriptedClient as AClient};

use crate::event::{events, script};
use crate::fault::{Field, ScenarioFault};
use crate::field::{dc, list, number};
use crate::scenario::{MAX_CLIENTS, MAX_EVENTS, MAX_SCRIPT, Scenario};
use crate::script::ScriptedClient;
use cops_core::Event;
use cops_json::{Unread, key};
use cops_place::{MAX_SPLITS, Place, PlaceFault};
use cops_types::{Format, MAX_DCS};
use serde_json::Value as Json;
use std::alloc::Global;

impl Scenario {
    ghost use Rattle.std.specs.Prelude.{◌≡◌, Err, IfOk};
    ghost use Rattle.cops_scenario.specs.File.{IsTextOf, IsNoText, IsWrongText};

    /// Reads a scenario from its JSON text, as docs/FORMATS.md describes it. Errors: `NotJson` if the bytes are no JSON
    /// text; `BadField` with the first field, in the order of `Field`, that is missing without a default, does not have
    /// the right form, or is not within its limits; `Memory` if memory runs out.
    pub fn from_json(alloc: Global, bytes: &[u8]) -> Result<Scenario, ScenarioFault>
        ensures ok { IfOk result (IsTextOf bytes.now) }
        ensures not_json { result ≡ Err ScenarioFault.NotJson → IsNoText bytes.now }
        ensures bad_field { (field : AField) → result ≡ Err (ScenarioFault.BadField field) → IsWrongText bytes.now field }
    {
        match Json::from_slice(alloc, bytes) {
            Ok(root) => scenario(alloc, &root),
            Err(e) if e.is_memory() => Err(ScenarioFault::Memory),
            Err(_) => Err(ScenarioFault::NotJson),
        }
    }
}

/// Reads a scenario from a JSON value.
fn scenario(alloc: Global, root: &Json) -> Result<Scenario, ScenarioFault>
    ensures reported { IfOk result (GivesScenario (view root.now)) }
    ensures legal { IfOk result IsLegalScenario }
    ensures wrong { (field : AField) → result ≡ Err (ScenarioFault.BadField field) → IsWrong (view root.now) field }
    ensures first { (field : AField) → result ≡ Err (ScenarioFault.BadField field) → AreRightBefore (view root.now) field }
    ensures json { result ≢ Err ScenarioFault.NotJson }
{
    if !root.is_object() {
        return Err(ScenarioFault::BadField(Field::Root));
    }
    let format = format_of(root)?;
    let dcs = number_of(root, Field::DataCentres)? as u8;
    let place = place(alloc, dcs, root.get(Field::Splits.name())).map_err(
        |unread| ScenarioFault::of(unread, Field::Splits),
    )?;
    let link = number_of(root, Field::Link)? as u16;
    let turns = number_of(root, Field::Turns)? as u32;
    let retries = number_of(root, Field::Retries)? as u8;
    let repeat = number_of(root, Field::Repeat)? as u8;
    let hold = number_of(root, Field::Hold)? as u16;
    let Some(listed) = root.get(Field::Clients.name()) else {
        return Err(ScenarioFault::BadField(Field::Clients));
    };
    let clients = clients(alloc, format, dcs, listed).map_err(|unread| ScenarioFault::of(
        unread,
        Field::Clients,
    ))?;
    let events = events_alone(alloc, format, listed, root.get(Field::Events.name())).map_err(
        |unread| ScenarioFault::of(unread, Field::Events),
    )?;
    Ok(Scenario::new(
        format, place, link, turns, retries, repeat, hold, clients, events,
    ))
}

/// The format that the file names, or format 1 if it names none.
fn format_of(root: &Json) -> Result<Format, ScenarioFault>
    ensures reported { IfOk result (λ format. GivesNumberAt (view root.now) AField.Format (number_in format)) }
    ensures value { IfOk result (λ format. format ≡ format_at (view root.now)) }
    ensures right { OnOk result (IsRightNumber (view root.now) AField.Format) }
    ensures wrong { OnErr result (result ≡ Err (ScenarioFault.BadField AField.Format)) }
    ensures none { OnErr result (IsWrongNumber (view root.now) AField.Format) }
{
    let number = number_of(root, Field::Format)?;
    match Format::of_number(number as u16) {
        Some(format) => Ok(format),
        None => unreachable!(),
    }
}

/// The whole number of a field, or its default if it is missing.
fn number_of(root: &Json, field: Field) -> Result<u64, ScenarioFault>
    requires { IsSome (range_of field) }
    ensures reported { IfOk result (GivesNumberAt (view root.now) field) }
    ensures value { IfOk result (λ n. n ≡ number_at (view root.now) field) }
    ensures range { IfOk result (λ n. IfSome (range_of field) (λ range. (range.least ≤ n) × (n ≤ range.most))) }
    ensures right { OnOk result (IsRightNumber (view root.now) field) }
    ensures wrong { OnErr result (result ≡ Err (ScenarioFault.BadField field)) }
    ensures none { OnErr result (IsWrongNumber (view root.now) field) }
{
    let Some(range) = field.range() else {
        unreachable!();
    };
    match (root.get(field.name()), range.missing) {
        (Some(json), _) => {
            number(json, range.least, range.most).map_err(|unread| ScenarioFault::of(unread, field))
        }
        (None, Some(n)) => Ok(n),
        _ => Err(ScenarioFault::BadField(field)),
    }
}

/// The place with `dcs` data centres and the split keys of a list, or none if the list is missing.
fn place(alloc: Global, dcs: u8, splits: Option<&Json>) -> Result<Place, Unread>
    requires { (1 ≤ dcs) × (dcs ≤ MAX_DCS) }
    ensures dcs { IfOk result (λ place. place.dcs ≡ dcs) }
    ensures splits { IfOk result (λ place. IsListOrMissing (map text_json place.splits) (option_map (λ v. view v.now) splits.entry)) }
    ensures legal { IfOk result (λ place. AreSplits place.splits) }
    ensures none { result ≡ Err Unread.Form → (keys : List (List ℕ)) → AreSplits keys → IsListOrMissing (map text_json keys) (option_map (λ v. view v.now) splits.entry) → ⊥ }
{
    let Some(json) = splits else {
        return Ok(whole_place(alloc, dcs));
    };
    let mut keys = Vec::new(alloc);
    for item in list(json, MAX_SPLITS)? {
        keys.push(key(alloc, item)?)?;
    }
    Place::new(dcs, keys).or(Err(Unread::Form))
}

/// The place with `dcs` data centres and no split keys.
fn whole_place(alloc: Global, dcs: u8) -> Place
    requires { (1 ≤ dcs) × (dcs ≤ MAX_DCS) }
    ensures { result ≡ record { dcs = dcs; splits = [] } }
{
    match Place::new(dcs, Vec::new(alloc)) {
        Ok(place) => place,
        Err(PlaceFault::BadCount) => unreachable!(),
        Err(PlaceFault::SplitsNotAscending) => unreachable!(),
    }
}

/// Reads a list of clients.
fn clients(
    alloc: Global,
    format: Format,
    dcs: u8,
    json: &Json,
) -> Result<Vec<ScriptedClient>, Unread>
    ensures few { IfOk result (λ clients. length clients.items ≤ MAX_CLIENTS) }
    ensures each { IfOk result (λ clients. All (IsClientOf dcs) clients.items) }
    ensures legal { IfOk result (λ clients. All (IsLegalClient format dcs) clients.items) }
    ensures reported { IfOk result (λ clients. (ds : List Data) × (view json.now ≡ list_json ds) × GiveClients ds clients.items) }
    ensures none { result ≡ Err Unread.Form → (ds : List Data) (cs : List AClient) → view json.now ≡ list_json ds → GiveClients ds cs → length cs ≤ MAX_CLIENTS → All (IsLegalClient format dcs) cs → ⊥ }
{
    let mut clients = Vec::new(alloc);
    for item in list(json, MAX_CLIENTS)? {
        clients.push(client(alloc, format, dcs, item)?)?;
    }
    Ok(clients)
}

/// Reads a client: an object with its data centre, and its script, which is empty if it is missing.
fn client(alloc: Global, format: Format, dcs: u8, json: &Json) -> Result<ScriptedClient, Unread>
    ensures limits { IfOk result (IsClientOf dcs) }
    ensures legal { IfOk result (IsLegalClient format dcs) }
    ensures reported { IfOk result (GivesClient (view json.now)) }
    ensures none { result ≡ Err Unread.Form → (c : AClient) → IsLegalClient format dcs c → GivesClient (view json.now) c → ⊥ }
{
    let at = dc(json.get("at").ok_or(Unread::Form)?)?;
    if at >= dcs {
        return Err(Unread::Form);
    }
    let script = match json.get("script") {
        Some(list) => script(alloc, format, list, MAX_SCRIPT)?,
        None => Vec::new(alloc),
    };
    Ok(ScriptedClient { at, script })
}

/// Reads a list of events, or returns none if it is missing. Events stand alone: no listed client may have a script.
fn events_alone(
    alloc: Global,
    format: Format,
    listed: &Json,
    list: Option<&Json>,
) -> Result<Option<Vec<Event>>, Unread>
    ensures few { IfOk result (λ found. IfSome (option_map (λ e. e.items) found) (λ events. length events ≤ MAX_EVENTS)) }
    ensures legal { IfOk result (λ found. AreLegalEvents format (option_map (λ e. e.items) found)) }
    ensures reported { IfOk result (λ found. GivesEvents (option_map (λ v. view v.now) list.entry) (option_map (λ e. e.items) found)) }
    ensures alone { IfOk result (λ found. (ds : List Data) → view listed.now ≡ list_json ds → AreUnscripted ds (option_map (λ e. e.items) found)) }
    ensures none { result ≡ Err Unread.Form → (ds : List Data) (reported : Option (List AnEvent)) → view listed.now ≡ list_json ds → GivesEvents (option_map (λ v. view v.now) list.entry) reported → AreLegalEvents format reported → AreUnscripted ds reported → ⊥ }
{
    let Some(json) = list else {
        return Ok(None);
    };
    if lists_script(listed) {
        return Err(Unread::Form);
    }
    Ok(Some(events(alloc, format, json, MAX_EVENTS)?))
}

/// Whether some listed client has a script, even an empty one.
fn lists_script(listed: &Json) -> bool
    ensures none { OnFalse result ((ds : List Data) → view listed.now ≡ list_json ds → AreUnscripted ds (Some [])) }
    ensures some { OnTrue result ((ds : List Data) → view listed.now ≡ list_json ds → AreUnscripted ds (Some []) → ⊥) }
{
    match listed.as_array() {
        Some(items) => has_script(items),
        None => false,
    }
}

/// Whether one of these clients has a script.
fn has_script(items: &[Json]) -> bool
    ensures none { OnFalse result (All (λ v. get (codes "script") (view v) ≡ None) items.now) }
    ensures some { OnTrue result (All (λ v. get (codes "script") (view v) ≡ None) items.now → ⊥) }
{
    items.iter().any(|client| client.get("script").is_some())
}
