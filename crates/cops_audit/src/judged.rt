use crate::verdict::{OrderedVerdict, Verdict};
use cops_types::{History, VersionedPut};
use std::marker::Model;

/// The verdict on a history with its puts in order of versions, and the history. The model has the sessions without
/// their values, which no report needs.
#[derive(Debug, Drop)]
pub struct Judged {
    history: History,
    ordered: OrderedVerdict,
}

impl Model for Judged {
    ghost use Rattle.cops_audit.specs.Judged.{AJudged, without_values};
    ghost use Rattle.cops_audit.specs.Ordered.{IsOrderedVerdict};

    ghost Value = { AJudged };

    ghost view = { λ j. record { sessions = without_values j.history.sessions; verdict = j.ordered.verdict; puts = j.ordered.puts.items } };

    ghost invariant = { λ j. IsOrderedVerdict j.history.sessions j.ordered };
}

impl Judged {
    ghost use Rattle.std.specs.Prelude.{◌≡◌};
    ghost use Rattle.cops_audit.specs.Judged.{IsJudged};
    ghost use Rattle.cops_audit.specs.Ordered.{IsOrderedVerdict};

    /// A history and its verdict.
    pub(crate) fn new(history: History, ordered: OrderedVerdict) -> Self
        requires { IsOrderedVerdict history.sessions ordered }
        ensures { IsJudged history.sessions result }
    {
        Judged { history, ordered }
    }

    /// The verdict.
    pub fn verdict(&self) -> &Verdict
        ensures { result.now ≡ self.now.verdict }
    {
        &self.ordered.verdict
    }

    /// All puts, in order of versions.
    pub fn puts(&self) -> &[VersionedPut]
        ensures { result.now ≡ self.now.puts }
    {
        self.ordered.puts.as_slice()
    }

    pub fn into_verdict(self) -> Verdict
        ensures { result ≡ self.verdict }
    {
        let Judged { ordered, .. } = self;
        ordered.verdict
    }

    /// A history with these sessions, up to their values, and this verdict.
    pub fn history(&self) -> &History
        ensures { IsJudged result.now.sessions self.now }
    {
        &self.history
    }
}
