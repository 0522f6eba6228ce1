//! Why a line gives no operation.
use crate::fault::JsonLineFault;
use crate::version::Unversioned;
use cops_json::Unread;

/// Why a line gives no operation.
#[derive(Clone, Copy, Debug, PartialEq, Eq)]
pub(crate) enum NotGiven {
    Memory,
    /// Its version has no rank.
    Unranked,
    Fault(JsonLineFault),
}

impl NotGiven {
    ghost use Rattle.std.specs.Prelude.{◌≡◌};

    /// Why a line gives no operation if one of its members was not read. `fault` is the line's fault if the member does
    /// not have the right form.
    pub(crate) fn of(unread: Unread, fault: JsonLineFault) -> NotGiven
        ensures memory { unread ≡ Unread.Memory → result ≡ NotGiven.Memory }
        ensures form { unread ≡ Unread.Form → result ≡ NotGiven.Fault fault }
    {
        match unread {
            Unread::Memory => NotGiven::Memory,
            Unread::Form => NotGiven::Fault(fault),
        }
    }

    /// Why a line gives no operation if its version was not read.
    pub(crate) fn of_version(unversioned: Unversioned) -> NotGiven
        ensures memory { unversioned ≡ Unversioned.Memory → result ≡ NotGiven.Memory }
        ensures form { unversioned ≡ Unversioned.Form → result ≡ NotGiven.Fault JsonLineFault.BadVersion }
        ensures unranked { unversioned ≡ Unversioned.Unranked → result ≡ NotGiven.Unranked }
    {
        match unversioned {
            Unversioned::Memory => NotGiven::Memory,
            Unversioned::Form => NotGiven::Fault(JsonLineFault::BadVersion),
            Unversioned::Unranked => NotGiven::Unranked,
        }
    }
}
