//! The other puts with an operation's version.
ghost use Rattle.std.specs.Prelude.{◌≡◌, ◌↔◌, Contains, IfOk, IsTrue};
ghost use Rattle.cops_types.specs.declared.op.OpName.{OpName};
ghost use Rattle.cops_report.specs.Reports.{HasSomeVersion, version_at};
ghost use Rattle.cops_explain.specs.Others.{AreOthers, IsOther};
ghost use Rattle.cops_explain.specs.Refused.{HasItsPuts, history_of};

use crate::refused::Refused;
use cops_report::{from_version, version_at};
use cops_types::{History, OpName, Version};
use std::alloc::AllocError;

/// Whether `other` is another put with an operation's version.
fn is_other(history: &History, name: OpName, version: Version, other: OpName) -> bool
    requires { version ≡ version_at history.now.sessions name }
    ensures { IsTrue result ↔ IsOther history.now.sessions name other }
{
    match history.put_version(other) {
        Some(own) => own == version && other != name,
        None => false,
    }
}

/// The other puts with an operation's version, in the order of the puts.
fn holders(refused: Refused<'_>, name: OpName) -> Result<Vec<OpName>, AllocError>
    requires puts { HasItsPuts refused }
    requires version { HasSomeVersion (history_of refused).sessions name }
    ensures { IfOk result (λ names. (n : OpName) →
        Contains names.items n ↔ IsOther (history_of refused.entry).sessions name n) }
{
    let history = refused.named.history;
    let version = version_at(history, name);
    let mut names = Vec::new(refused.alloc);
    for put in from_version(refused.puts, version) {
        if put.version != version {
            return Ok(names);
        }
        if is_other(history, name, version, put.name) {
            names.push(put.name)?;
        }
    }
    Ok(names)
}

impl Refused<'_> {
    /// The other puts with an operation's version, in order of names.
    pub fn others(self, name: OpName) -> Result<Vec<OpName>, AllocError>
        requires puts { HasItsPuts self }
        requires version { HasSomeVersion (history_of self).sessions name }
        ensures { IfOk result (λ names. AreOthers (history_of self.entry).sessions name names.items) }
    {
        let mut names = holders(self, name)?;
        names.sort_unstable();
        names.dedup();
        Ok(names)
    }
}
