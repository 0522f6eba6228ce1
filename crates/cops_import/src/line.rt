//! Parsing one line.
ghost use Rattle.std.specs.Prelude.{◌≡◌, ◌⊎◌, ◌↔◌, ℕ, Err, IfErr, IfOk, IsTrue, Some, codes, option_map, option_copied};
ghost use Rattle.serde_json.specs.Data.{null};
ghost use Rattle.serde_json.specs.Find.{get};
ghost use Rattle.serde_json.specs.View.{view};
ghost use Rattle.cops_types.specs.Format.{Fits};
ghost use Rattle.cops_import.specs.declared.fault.JsonLineFault.{JsonLineFault as AFault};
ghost use Rattle.cops_import.specs.declared.rules.Rules.{Rules as ARules};
ghost use Rattle.cops_import.specs.Line.{FoundNothing, GivesVersion, HasName, HasNoContent, HasNoVersion, IsAsked, IsBlank, IsFaulty, IsNothing, IsUnranked, IsWrong, IsWrongIn, LacksRank, LineGives, LineLacksRank, Gives, GivesContent, TextGives, TextLacksRank, is_blank_line};
ghost use Rattle.cops_import.specs.Asked.{ActsKind, IsUnrankedOf, IsWrongOf};

use crate::fault::JsonLineFault;
use crate::field::{name_of, value_of};
use crate::not_given::NotGiven;
use crate::reported::{LineOp, Reported, UnknownPut};
use crate::rules::Versions;
use crate::version::version_of;
use cops_json::{Unread, key};
use cops_outcomes::Write;
use cops_types::{Format, Key, Op, Value, Version};
use serde_json::Value as Json;
use std::alloc::Global;

/// The kind of an operation. The outcome of a put or a deletion may be unknown.
#[derive(Clone, Copy, Debug, PartialEq, Eq)]
pub(crate) enum Kind {
    Put,
    Get,
    Del,
    MaybePut,
    MaybeDel,
}

/// What an object says that was done: an operation with its result, or a write whose outcome is unknown.
#[derive(Debug, Drop)]
pub(crate) enum Action {
    Op(Op),
    Write(Write),
}

/// What the line of this number reports for a trace of the format, nothing if it is blank, or what is wrong with it.
pub(crate) fn of_line(
    alloc: Global,
    format: Format,
    versions: &Versions,
    number: u64,
    line: &[u8],
) -> Result<Option<Reported>, NotGiven>
    ensures reported { IfOk result (LineGives (record { format = format; versions = versions.now }) number line.now) }
    ensures wrong { (fault : AFault) → result ≡ Err (NotGiven.Fault fault) → IsFaulty (record { format = format; versions = versions.now }) line.now fault }
    ensures unranked { result ≡ Err NotGiven.Unranked → LineLacksRank (record { format = format; versions = versions.now }) line.now }
{
    if is_blank(line) {
        return Ok(None);
    }
    match of_text(alloc, format, versions, number, line) {
        Ok(reported) => Ok(Some(reported)),
        Err(not_given) => Err(not_given),
    }
}

/// What a line's JSON text reports.
fn of_text(
    alloc: Global,
    format: Format,
    versions: &Versions,
    number: u64,
    line: &[u8],
) -> Result<Reported, NotGiven>
    ensures reported { IfOk result (TextGives (record { format = format; versions = versions.now }) number line.now) }
    ensures wrong { (fault : AFault) → result ≡ Err (NotGiven.Fault fault) → IsWrongIn (record { format = format; versions = versions.now }) line.now fault }
    ensures unranked { result ≡ Err NotGiven.Unranked → TextLacksRank (record { format = format; versions = versions.now }) line.now }
{
    match Json::from_slice(alloc, line) {
        Ok(object) => of_object(alloc, format, versions, number, &object),
        Err(e) if e.is_memory() => Err(NotGiven::Memory),
        Err(_) => Err(NotGiven::Fault(JsonLineFault::NoJson)),
    }
}

/// Whether a line has nothing but spaces, tabs and carriage returns. An import skips such a line.
pub fn is_blank(line: &[u8]) -> bool
    ensures value { result ≡ is_blank_line line.now }
    ensures blank { IsTrue result ↔ IsBlank line.now }
{
    line.iter()
        .all(|b| *b == b' ' || *b == b'\t' || *b == b'\r')
}

/// What an object reports.
fn of_object(
    alloc: Global,
    format: Format,
    versions: &Versions,
    number: u64,
    object: &Json,
) -> Result<Reported, NotGiven>
    ensures reported { IfOk result (Gives (record { format = format; versions = versions.now }) number (view object.now)) }
    ensures wrong { (fault : AFault) → result ≡ Err (NotGiven.Fault fault) → IsWrong (record { format = format; versions = versions.now }) (view object.now) fault }
    ensures unranked { result ≡ Err NotGiven.Unranked → LacksRank (record { format = format; versions = versions.now }) (view object.now) }
{
    let name = match name_of(alloc, object) {
        Ok(name) => name,
        Err(unread) => return Err(NotGiven::of(unread, JsonLineFault::NoClient)),
    };
    let asked = match asked(object) {
        Ok(asked) => asked,
        Err(fault) => return Err(NotGiven::Fault(fault)),
    };
    match action_of(alloc, format, versions, asked, object) {
        Ok(Action::Op(op)) => Ok(Reported::Known(LineOp { name, op })),
        Ok(Action::Write(write)) => Ok(Reported::Unknown(UnknownPut {
            name,
            write,
            line: number,
        })),
        Err(not_given) => Err(not_given),
    }
}

/// The kind of an object's one operation, and the value that holds its key.
fn asked(object: &Json) -> Result<(Kind, &Json), JsonLineFault>
    ensures one { IfOk result (λ asked. IsAsked (view object.now) asked.0 (view asked.1.now)) }
    ensures wrong { IfErr result (λ fault. (rules : ARules) → HasName (view object.now) → IsWrong rules (view object.now) fault) }
{
    let is_unknown = is_null(object.get("ok"));
    match (object.get("put"), object.get("get"), object.get("del")) {
        (Some(at), None, None) if is_unknown => Ok((Kind::MaybePut, at)),
        (Some(at), None, None) => Ok((Kind::Put, at)),
        (None, Some(at), None) => Ok((Kind::Get, at)),
        (None, None, Some(at)) if is_unknown => Ok((Kind::MaybeDel, at)),
        (None, None, Some(at)) => Ok((Kind::Del, at)),
        (None, None, None) => Err(JsonLineFault::NoOperation),
        _ => Err(JsonLineFault::BothOperations),
    }
}

/// What an object says that was done, given its operation's kind and the value that holds its key.
fn action_of(
    alloc: Global,
    format: Format,
    versions: &Versions,
    asked: (Kind, &Json),
    object: &Json,
) -> Result<Action, NotGiven>
    ensures reported { IfOk result (ActsKind (record { format = format; versions = versions.now }) (view object.now) asked.entry.0 (view asked.entry.1.now)) }
    ensures wrong { (fault : AFault) → result ≡ Err (NotGiven.Fault fault) → IsWrongOf (record { format = format; versions = versions.now }) (view object.now) asked.entry.0 (view asked.entry.1.now) fault }
    ensures unranked { result ≡ Err NotGiven.Unranked → IsUnrankedOf (record { format = format; versions = versions.now }) (view object.now) asked.entry.0 (view asked.entry.1.now) }
{
    let (kind, at) = asked;
    let key = key(alloc, at).map_err(|unread| NotGiven::of(unread, JsonLineFault::BadKey))?;
    if kind == Kind::Get && found_nothing(object) {
        return Ok(Action::Op(Op::Missed { key }));
    }
    let content = content_of(alloc, format, kind, object).map_err(|unread| NotGiven::of(
        unread,
        JsonLineFault::BadValue,
    ))?;
    match kind {
        Kind::MaybePut | Kind::MaybeDel => write_of(format, key, content, object),
        Kind::Get => {
            let version = right_version(alloc, format, versions, content.as_ref(), object)?;
            Ok(Action::Op(Op::read(key, content, version)))
        }
        Kind::Put | Kind::Del => {
            let version = right_version(alloc, format, versions, content.as_ref(), object)?;
            Ok(Action::Op(Op::write(key, content, version)))
        }
    }
}

/// What a put or a deletion of unknown outcome writes. It has no version.
fn write_of(
    format: Format,
    key: Key,
    content: Option<Value>,
    object: &Json,
) -> Result<Action, NotGiven>
    ensures written { IfOk result (λ action. action ≡ Action.Write (record { key = key; content = content })) }
    ensures right { IfOk result (λ _. IsNothing (get (codes "version") (view object.now)) × Fits format content) }
    ensures version { result ≡ Err (NotGiven.Fault JsonLineFault.BadVersion) → IsNothing (get (codes "version") (view object.now)) → ⊥ }
    ensures format { result ≡ Err (NotGiven.Fault JsonLineFault.NeedsFormat2) → IsNothing (get (codes "version") (view object.now)) × (Fits format content → ⊥) }
    ensures faults { IfErr result (λ why. (why ≡ NotGiven.Fault JsonLineFault.BadVersion) ⊎ (why ≡ NotGiven.Fault JsonLineFault.NeedsFormat2)) }
{
    if !is_nothing(object.get("version")) {
        return Err(NotGiven::Fault(JsonLineFault::BadVersion));
    }
    if !format.fits(content.as_ref()) {
        return Err(NotGiven::Fault(JsonLineFault::NeedsFormat2));
    }
    Ok(Action::Write(Write { key, content }))
}

/// The version of an object, whose content has to be in the format.
fn right_version(
    alloc: Global,
    format: Format,
    versions: &Versions,
    content: Option<&Value>,
    object: &Json,
) -> Result<Version, NotGiven>
    ensures reported { IfOk result (GivesVersion versions.now (view object.now)) }
    ensures fits { IfOk result (λ _. Fits format (option_copied content.entry)) }
    ensures version { result ≡ Err (NotGiven.Fault JsonLineFault.BadVersion) → HasNoVersion versions.now (view object.now) }
    ensures format { result ≡ Err (NotGiven.Fault JsonLineFault.NeedsFormat2) → ((version : ℕ) × GivesVersion versions.now (view object.now) version) × (Fits format (option_copied content.entry) → ⊥) }
    ensures unranked { result ≡ Err NotGiven.Unranked → IsUnranked versions.now (view object.now) }
    ensures faults { (fault : AFault) → result ≡ Err (NotGiven.Fault fault) → (fault ≡ JsonLineFault.BadVersion) ⊎ (fault ≡ JsonLineFault.NeedsFormat2) }
{
    let version = version_of(alloc, versions, object).map_err(|why| NotGiven::of_version(why))?;
    if !format.fits(content) {
        return Err(NotGiven::Fault(JsonLineFault::NeedsFormat2));
    }
    Ok(version)
}

/// What an operation of this kind put or got, other than a get that found nothing: a value, or none where it is a
/// deletion or a get that found one.
fn content_of(
    alloc: Global,
    format: Format,
    kind: Kind,
    object: &Json,
) -> Result<Option<Value>, Unread>
    ensures reported { IfOk result (GivesContent format (view object.now) kind) }
    ensures none { result ≡ Err Unread.Form → HasNoContent format (view object.now) kind }
{
    let value = object.get("value");
    match kind {
        Kind::Get if is_null(value) && !is_nothing(object.get("version")) => Ok(None),
        Kind::Del | Kind::MaybeDel if is_nothing(value) => Ok(None),
        Kind::Del | Kind::MaybeDel => Err(Unread::Form),
        Kind::Put | Kind::MaybePut | Kind::Get => Ok(Some(value_of(alloc, format, object)?)),
    }
}

/// Whether an object has a null as its value, and no version.
fn found_nothing(object: &Json) -> bool
    ensures { IsTrue result ↔ FoundNothing (view object.now) }
{
    is_null(object.get("value")) && is_nothing(object.get("version"))
}

/// Whether the member is present and null.
fn is_null(at: Option<&Json>) -> bool
    ensures { IsTrue result ↔ (option_map (λ v. view v.now) at.entry ≡ Some null) }
{
    match at {
        Some(json) => json.is_null(),
        None => false,
    }
}

/// Whether the member is absent or null.
fn is_nothing(at: Option<&Json>) -> bool
    ensures { IsTrue result ↔ IsNothing (option_map (λ v. view v.now) at.entry) }
{
    match at {
        Some(json) => json.is_null(),
        None => true,
    }
}
