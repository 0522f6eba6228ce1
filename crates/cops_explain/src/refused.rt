//! What the explanation of a refusal is made of, in words and as JSON.
use crate::naming::NamedHistory;
use cops_audit::{Faults, Stale};
use cops_report::chain_by;
use cops_types::{Memory, OpName, VersionedPut};
use std::alloc::Global;

/// What the explanation of a refusal is made of: the history with its naming, its puts in order of versions, and its
/// faults.
#[derive(Clone, Copy)]
pub struct Refused<'a> {
    pub alloc: Global,
    pub named: NamedHistory<'a>,
    pub puts: &'a [VersionedPut],
    pub faults: &'a Faults,
}

impl Refused<'_> {
    ghost use Rattle.std.specs.Prelude.{IfOk};
    ghost use Rattle.cops_types.specs.Faults.{IsStale};
    ghost use Rattle.cops_report.specs.Chains.{IsFirstChain};
    ghost use Rattle.cops_explain.specs.Refused.{HasItsPuts, history_of};

    /// The report's chain of a stale get, from the newer put to the get.
    pub fn chain(self, fault: Stale) -> Result<Vec<OpName>, Memory>
        requires puts { HasItsPuts self }
        requires stale { IsStale (history_of self).sessions fault.op fault.newer }
        ensures { IfOk result (λ chain.
            IsFirstChain (history_of self.entry).sessions fault.newer fault.op chain.items) }
    {
        let found = chain_by(
            self.alloc,
            self.named.history,
            self.puts,
            fault.newer,
            fault.op,
        )?;
        match found {
            Some(chain) => Ok(chain),
            None => unreachable!(),
        }
    }
}
