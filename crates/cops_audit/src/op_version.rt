ghost use Rattle.cops_types.specs.Histories.{IsNamed};
ghost use Rattle.cops_audit.specs.Summaries.{HasDone};

use cops_types::{History, OpName, Version};

/// What an operation did: the version that it put or got.
#[derive(Drop)]
pub enum OpVersion {
    Put(Version),
    Got(Version),
    /// A get that found nothing.
    Missed,
}

impl OpVersion {
    /// What the operation with this name did.
    pub fn of(history: &History, name: OpName) -> Self
        requires { IsNamed history.now.sessions name }
        ensures { HasDone history.now.sessions name result }
    {
        if let Some(version) = history.put_version(name) {
            return OpVersion::Put(version);
        }
        match history.got_version(name) {
            Some(version) => OpVersion::Got(version),
            None => OpVersion::Missed,
        }
    }
}
