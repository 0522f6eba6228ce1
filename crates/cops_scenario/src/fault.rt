//! The faults of reading a scenario.
use crate::scenario::{
    DEFAULT_FORMAT, DEFAULT_HOLD, DEFAULT_LINK, DEFAULT_REPEAT, DEFAULT_RETRIES, DEFAULT_TURNS,
    MAX_FORMAT, MAX_HOLD, MAX_LINK, MAX_REPEAT, MAX_RETRIES, MAX_TURNS,
};
use cops_json::Unread;
use cops_types::MAX_DCS;
use std::fmt;
use thiserror::Error;

/// The range of a field that is a whole number, and its default, if it may be missing.
#[derive(Clone, Copy)]
pub(crate) struct NumberRange {
    pub(crate) least: u64,
    pub(crate) most: u64,
    pub(crate) missing: Option<u64>,
}

/// The fields of a scenario file, in the order of the checks. `Root` is the whole file.
#[derive(Clone, Copy, Debug, PartialEq, Eq)]
pub enum Field {
    Root,
    Format,
    DataCentres,
    Splits,
    Link,
    Turns,
    Retries,
    Repeat,
    Hold,
    Clients,
    Events,
}

impl Field {
    ghost use Rattle.std.specs.Prelude.{◌≡◌};
    ghost use Rattle.cops_scenario.specs.Fields.{name_of, range_of};

    /// The field's range, if it is a whole number.
    pub(crate) fn range(self) -> Option<NumberRange>
        ensures { result ≡ range_of self }
    {
        let (least, most, missing) = match self {
            Field::Format => (1, u64::from(MAX_FORMAT), Some(u64::from(DEFAULT_FORMAT))),
            Field::DataCentres => (1, u64::from(MAX_DCS), None),
            Field::Link => (1, u64::from(MAX_LINK), Some(u64::from(DEFAULT_LINK))),
            Field::Turns => (1, u64::from(MAX_TURNS), Some(u64::from(DEFAULT_TURNS))),
            Field::Retries => (0, u64::from(MAX_RETRIES), Some(u64::from(DEFAULT_RETRIES))),
            Field::Repeat => (0, u64::from(MAX_REPEAT), Some(u64::from(DEFAULT_REPEAT))),
            Field::Hold => (0, u64::from(MAX_HOLD), Some(u64::from(DEFAULT_HOLD))),
            _ => return None,
        };
        Some(NumberRange {
            least,
            most,
            missing,
        })
    }

    /// The field's name in the file.
    pub fn name(self) -> &'static str
        ensures { result.now ≡ name_of self }
    {
        match self {
            Field::Root => "root",
            Field::Format => "format",
            Field::DataCentres => "data_centres",
            Field::Splits => "splits",
            Field::Link => "link",
            Field::Turns => "turns",
            Field::Retries => "retries",
            Field::Repeat => "repeat",
            Field::Hold => "hold",
            Field::Clients => "clients",
            Field::Events => "events",
        }
    }
}

impl fmt::Display for Field {
    ghost use Rattle.std.specs.Prelude.{Some};
    ghost use Rattle.cops_scenario.specs.Fields.{name_of};

    ghost output = { λ f. Some (name_of f) };

    fn fmt<W: fmt::Write>(&self, f: &mut fmt::Formatter<W>) -> fmt::Result {
        f.write_str(self.name())
    }
}

/// The faults of reading a scenario.
#[derive(Clone, Copy, Debug, PartialEq, Eq, Error)]
pub enum ScenarioFault {
    /// 0: out of memory.
    #[error("out of memory")]
    Memory,
    /// 1: the bytes are no JSON text: they break the grammar or the encoding, or are nested deeper than 127.
    #[error("scenario is not JSON")]
    NotJson,
    /// 2: the first field that is missing without a default, does not have the right form, or is not within its limits.
    #[error("scenario field {0}")]
    BadField(Field),
}

impl ScenarioFault {
    ghost use Rattle.std.specs.Prelude.{◌≡◌, ◌≢◌};

    /// The fault of a field that was not read.
    pub(crate) fn of(unread: Unread, field: Field) -> ScenarioFault
        ensures memory { unread ≡ Unread.Memory → result ≡ ScenarioFault.Memory }
        ensures form { unread ≡ Unread.Form → result ≡ ScenarioFault.BadField field }
        ensures json { result ≢ ScenarioFault.NotJson }
    {
        match unread {
            Unread::Memory => ScenarioFault::Memory,
            Unread::Form => ScenarioFault::BadField(field),
        }
    }
}
