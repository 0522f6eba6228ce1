//! Passes over lines before they are imported: the number of clients, what puts of unknown outcome write, and the ranks
//! of versions.
ghost use Rattle.std.specs.Prelude.{◌≡◌, IfOk};
ghost use Rattle.cops_import.specs.Line.{AreRead};

use crate::fault::ImportFault;
use crate::found::Found;
use crate::line::{is_blank, of_line};
use crate::name::Name;
use crate::names::Names;
use crate::not_given::NotGiven;
use crate::reading::{PIECE, READS};
use crate::reported::Reported;
use crate::rules::{Expected, Versions};
use crate::seen::{Seen, may_be_unknown, seen_name, seen_version};
use crate::store_version::StoreVersion;
use cops_outcomes::{Sightings, Write, Writes};
use cops_types::{Counted, Format, MAX_CLIENTS};
use json::{Error, Scratch, Value};
use smallvec::SmallVec;
use std::alloc::{AllocError, Global};
use std::io::Read;
use std::str;

/// What `import_stream` has to know of lines before it reads them.
#[derive(Debug, Drop)]
pub struct Surveyed {
    /// What the lines have, if each line is right.
    pub expected: Expected,
    /// How versions are read: as they stand, or by the ranks of those of the lines.
    pub versions: Versions,
}

/// Surveys lines: how many clients they name, at most 65,535, what their puts of unknown outcome write, and, if versions
/// are to be ranked, the ranks of all versions that have the kind of the first one. It consumes the reader's bytes. If
/// there are puts of unknown outcome, `survey_outcomes` has to read the lines again.
///
/// Errors: `Memory` if memory runs out, `ReadFailed` if a read fails, `Endless` if the lines do not end within 2^40
/// reads.
pub fn survey<R: Read>(
    alloc: Global,
    is_ranked: bool,
    lines: &mut Counted<R>,
) -> Result<Surveyed, ImportFault>
    ensures { IfOk result (λ surveyed. AreRead is_ranked surveyed.versions) }
{
    let mut surveyor = Surveyor::new(alloc, is_ranked);
    take_lines(alloc, lines, &mut surveyor)?;
    surveyor.end(is_ranked)
}

/// Surveys lines again, which consumes the reader's bytes, and adds to the clients those of puts of unknown outcome that
/// took effect. Errors: as those of `survey`.
pub fn survey_outcomes<R: Read>(
    alloc: Global,
    surveyed: Surveyed,
    lines: &mut Counted<R>,
) -> Result<Surveyed, ImportFault>
    ensures { IfOk result (λ again. again.versions ≡ surveyed.versions) }
{
    let Surveyed { expected, versions } = surveyed;
    let Expected { clients, unknown } = expected;
    let sightings = Sightings::new(alloc, unknown)?;
    let mut watcher = Watcher {
        alloc,
        versions: &versions,
        sightings,
        asked: Vec::new(alloc),
    };
    take_lines(alloc, lines, &mut watcher)?;
    let (took_effect, unknown) = watcher.end()?;
    let clients = usize::from(clients)
        .saturating_add(took_effect)
        .min(usize::from(MAX_CLIENTS)) as u16;
    Ok(Surveyed {
        expected: Expected { clients, unknown },
        versions,
    })
}

/// What takes one line after another.
trait TakesLines {
    /// Takes a line, and returns whether later lines matter.
    fn take(&mut self, line: &[u8]) -> Result<bool, ImportFault>;
}

/// Reads lines to their end, or to the last one that matters.
fn take_lines<R: Read, T: TakesLines>(
    alloc: Global,
    lines: &mut Counted<R>,
    to: &mut T,
) -> Result<(), ImportFault> {
    let mut line = Vec::new(alloc);
    let mut piece = [0u8; PIECE];
    for _ in 0..READS {
        let Ok(count) = lines.read(&mut piece) else {
            return Err(ImportFault::ReadFailed);
        };
        if count == 0 {
            to.take(&line)?;
            return Ok(());
        }
        for (at, part) in piece[..count].split(|byte| *byte == b'\n').enumerate() {
            // The part before the first line feed is the rest of a line that began earlier.
            if at > 0 {
                if !to.take(&line)? {
                    return Ok(());
                }
                line.clear();
            }
            line.extend_from_slice(part)?;
        }
    }
    Err(ImportFault::Endless)
}

/// A survey in progress: the names, what puts of unknown outcome write, and the versions if they are to be ranked.
#[derive(Drop)]
struct Surveyor {
    alloc: Global,
    is_ranked: bool,
    names: Names,
    unknown: Writes,
    found: Found,
    scratch: Scratch,
}

impl TakesLines for Surveyor {
    /// Takes a line. Later lines do not matter if it has no name, or if there are already more clients than allowed.
    fn take(&mut self, line: &[u8]) -> Result<bool, ImportFault> {
        if !self.take_seen(line)? && !is_blank(line) && !self.take_parsed(line)? {
            return Ok(false);
        }
        Ok(self.names.len() <= usize::from(MAX_CLIENTS))
    }
}

impl Surveyor {
    ghost use Rattle.std.specs.Prelude.{IfOk};
    ghost use Rattle.cops_import.specs.Line.{AreRead};

    /// Begins a survey.
    fn new(alloc: Global, is_ranked: bool) -> Surveyor {
        Surveyor {
            alloc,
            is_ranked,
            names: Names::new(alloc),
            unknown: Writes::new(alloc),
            found: Found::new(alloc),
            scratch: Scratch::new(alloc),
        }
    }

    /// Takes a line without parsing it, if that is possible.
    fn take_seen(&mut self, line: &[u8]) -> Result<bool, ImportFault> {
        let Some(name) = seen_name(line) else {
            return Ok(false);
        };
        if may_be_unknown(line) {
            return Ok(false);
        }
        if self.is_ranked {
            match seen_version(self.alloc, line)? {
                Seen::Version(version) => self.found.add(version)?,
                Seen::Nothing => {}
                Seen::Hidden => return Ok(false),
            }
        }
        self.names.number(Name::new(self.alloc, name)?)?;
        Ok(true)
    }

    /// Takes a line by parsing its JSON, if it has a name.
    fn take_parsed(&mut self, line: &[u8]) -> Result<bool, ImportFault> {
        let Ok(text) = str::from_utf8(line) else {
            return Ok(false);
        };
        let object = match Value::parse(self.alloc, text, &mut self.scratch) {
            Ok(object) => object,
            Err(Error::OutOfMemory) => return Err(ImportFault::Memory),
            Err(_) => return Ok(false),
        };
        let Some(name) = name_of(&object) else {
            return Ok(false);
        };
        if let Some(Value::Null) = member(&object, "ok") {
            if let Some(write) = unknown_in(self.alloc, line)? {
                self.unknown.add(write)?;
                return Ok(true);
            }
        }
        self.names.number(Name::new(self.alloc, name.as_bytes())?)?;
        if self.is_ranked {
            if let Some(version) = version_in(self.alloc, &object)? {
                self.found.add(version)?;
            }
        }
        Ok(true)
    }

    /// Ends the survey, with the ranks if they are asked for.
    fn end(self, is_ranked: bool) -> Result<Surveyed, ImportFault>
        ensures { IfOk result (λ surveyed. AreRead is_ranked surveyed.versions) }
    {
        let Surveyor {
            names,
            unknown,
            found,
            ..
        } = self;
        let clients = names.len().min(usize::from(MAX_CLIENTS)) as u16;
        let versions = if is_ranked {
            Versions::Ranked(found.ranks().ok_or(ImportFault::Memory)?)
        } else {
            Versions::Plain
        };
        Ok(Surveyed {
            expected: Expected { clients, unknown },
            versions,
        })
    }
}

/// A second survey in progress: what operations show of puts of unknown outcome, and what these write, in their order.
#[derive(Drop)]
struct Watcher<'v> {
    alloc: Global,
    versions: &'v Versions,
    sightings: Sightings,
    asked: Vec<Write>,
}

impl<'v> TakesLines for Watcher<'v> {
    /// Takes a line. Later lines do not matter if it is wrong.
    fn take(&mut self, line: &[u8]) -> Result<bool, ImportFault> {
        match of_line(self.alloc, Format::Two, self.versions, 0, line) {
            Ok(None) => Ok(true),
            Ok(Some(Reported::Known(reported))) => {
                self.sightings.see(reported.op)?;
                Ok(true)
            }
            Ok(Some(Reported::Unknown(put))) => {
                self.asked.push(put.write)?;
                Ok(true)
            }
            Err(NotGiven::Memory) => Err(ImportFault::Memory),
            Err(_) => Ok(false),
        }
    }
}

impl<'v> Watcher<'v> {
    /// How many of the puts took effect, and what all of them write.
    fn end(self) -> Result<(usize, Writes), ImportFault> {
        let Watcher {
            alloc,
            sightings,
            asked,
            ..
        } = self;
        let mut outcomes = sightings.outcomes(alloc)?;
        let mut took_effect = 0usize;
        for write in &asked {
            if outcomes.next(write).is_some() {
                took_effect = took_effect.saturating_add(1);
            }
        }
        Ok((took_effect, outcomes.into_writes()))
    }
}

/// What the put of unknown outcome of a line writes, if the line is one.
fn unknown_in(alloc: Global, line: &[u8]) -> Result<Option<Write>, ImportFault> {
    match of_line(alloc, Format::Two, &Versions::Plain, 0, line) {
        Ok(Some(Reported::Unknown(put))) => Ok(Some(put.write)),
        Err(NotGiven::Memory) => Err(ImportFault::Memory),
        _ => Ok(None),
    }
}

/// The member with this name. Of several the last counts.
fn member<'v, 't>(object: &'v Value<'t>, word: &str) -> Option<&'v Value<'t>> {
    let Value::Object(members) = object else {
        return None;
    };
    let mut found = None;
    for (name, value) in members {
        if *name == word {
            found = Some(value);
        }
    }
    found
}

/// The name of an object's client.
fn name_of<'v>(object: &'v Value<'_>) -> Option<&'v str> {
    match member(object, "client")? {
        Value::String(text) => Some(*text),
        Value::Number(digits) if digits.parse::<u64>().is_ok() => Some(*digits),
        _ => None,
    }
}

/// The version of an object, as another store has it. Nothing if there is none.
fn version_in(alloc: Global, object: &Value<'_>) -> Result<Option<StoreVersion>, AllocError> {
    match member(object, "version") {
        Some(Value::Number(digits)) => Ok(digits.parse().ok().map(StoreVersion::Number)),
        Some(Value::String(text)) => {
            let text = SmallVec::from_slice(alloc, text.as_bytes())?;
            Ok(Some(StoreVersion::Text(text)))
        }
        Some(Value::Array(items)) => pair_in(alloc, items),
        _ => Ok(None),
    }
}

/// The version that is a list of a number and a text.
fn pair_in(alloc: Global, items: &[Value<'_>]) -> Result<Option<StoreVersion>, AllocError> {
    let [first, second] = items else {
        return Ok(None);
    };
    let (Value::Number(digits), Value::String(text)) = (first, second) else {
        return Ok(None);
    };
    let Ok(number) = digits.parse() else {
        return Ok(None);
    };
    let text = SmallVec::from_slice(alloc, text.as_bytes())?;
    Ok(Some(StoreVersion::Pair((number, text))))
}
