//! The end of serving: the nodes' logs are checked against what was recorded.
ghost use Rattle.std.specs.Prelude.{◌≡◌, ◌+◌, ◌*◌, ◌++◌, ◌↔◌, length, map, IfOk, IsTrue};
ghost use Rattle.std.specs.List.Sorted.{IsPermutation};
ghost use Rattle.cops_scenario.specs.Scenario.{setting_of};
ghost use Rattle.cops_cluster.specs.Close.{AreAll, made_in, reported as reported_in};
ghost use Rattle.cops_serve.specs.Serving.{HasNodesOf, IsTiedReport};

use crate::fault::ServeFault;
use crate::front_end::FrontEnd;
use cops_cluster::{Client, CloseFault, Closed, Cluster, Share};
use cops_core::Setting;
use cops_replication::Receiver;
use cops_report::report_of;
use cops_scenario::Scenario;
use cops_tie::{TieFault, tied_run};
use cops_trace::Trace;
use cops_types::Memory;
use std::alloc::{AllocError, Global};

/// What is left of a front end at its end: the trace of what the clients saw, and the report of it.
#[derive(Drop)]
pub struct Finished {
    pub trace: Trace,
    pub report: Vec<u8>,
}

impl FrontEnd {
    ghost use Rattle.std.specs.Prelude.{IfOk};
    ghost use Rattle.cops_serve.specs.Serving.{IsReportOn};

    /// Closes the cluster and returns the trace of what the clients saw in this scenario's world, and its report.
    ///
    /// Errors: `Untied` where the nodes' logs and the clients' sessions are not a run of that world, or the logs differ
    /// from what the callers were answered, with the least ticket at which that shows, or 0 where the cluster does not
    /// have the scenario's nodes; `Memory` when memory runs out.
    pub fn finish(self, scenario: &Scenario) -> Result<Finished, ServeFault>
        ensures { IfOk result (λ finished. IsReportOn scenario.now self finished.trace finished.report.items) }
    {
        if !is_of(&self.cluster, scenario) {
            drop(self);
            return Err(ServeFault::Untied { ticket: 0 });
        }
        let FrontEnd {
            cluster,
            clients,
            receivers,
            alloc,
            ..
        } = self;
        let shares = match shares(alloc, clients, receivers) {
            Ok(shares) => shares,
            Err(_) => {
                drop(cluster);
                return Err(ServeFault::Memory);
            }
        };
        let closed = closed(cluster, shares)?;
        let report = reported(alloc, scenario, &closed)?;
        let Closed { trace, .. } = closed;
        Ok(Finished { trace, report })
    }
}

/// Whether a cluster has the scenario's number of data centres and of nodes.
fn is_of(cluster: &Cluster, scenario: &Scenario) -> bool
    ensures { IsTrue result ↔ HasNodesOf scenario.now.place cluster.now.place }
{
    let place = scenario.place();
    cluster.dcs() == place.dcs() && cluster.nodes() == place.nodes()
}

/// The shares of the clients and of the receivers.
fn shares(
    alloc: Global,
    clients: Vec<Client>,
    receivers: Vec<Receiver>,
) -> Result<Vec<Share>, AllocError>
    ensures { IfOk result (λ shares. shares.items ≡ map (λ (c : _). c.share) clients.items ++ map (λ (r : _). r.share) receivers.items) }
{
    let mut shares = Vec::with_capacity(alloc, clients.len() + receivers.len())?;
    for client in clients {
        shares.push(client.into_share())?;
    }
    for receiver in receivers {
        shares.push(receiver.into_share())?;
    }
    Ok(shares)
}

/// Closes the cluster. Its entries are those of the shares, none of which is missing.
fn closed(cluster: Cluster, shares: Vec<Share>) -> Result<Closed, ServeFault>
    requires all { AreAll cluster.clients cluster.place.dcs shares.items }
    ensures len { IfOk result (λ closed. length closed.books.items ≡ cluster.place.dcs * (length cluster.place.splits + 1)) }
    ensures reported { IfOk result (λ closed. IsPermutation (made_in (length cluster.place.splits + 1) 0 closed.books.items) (reported_in shares.items)) }
{
    match cluster.close(shares) {
        Ok(closed) => Ok(closed),
        Err(CloseFault::NotKept { ticket }) => Err(ServeFault::Untied { ticket }),
        Err(CloseFault::Memory(_, _)) => Err(ServeFault::Memory),
        Err(CloseFault::SharesMissing(_, _)) => unreachable!(),
    }
}

/// The report of what a closed cluster's clients saw in a scenario's world.
fn reported(alloc: Global, scenario: &Scenario, closed: &Closed) -> Result<Vec<u8>, ServeFault>
    requires { length closed.now.books.items ≡ scenario.now.place.dcs * (length scenario.now.place.splits + 1) }
    ensures { IfOk result (λ text. IsTiedReport (setting_of scenario.now) closed.now.books.items closed.now.trace text.items) }
{
    let setting = scenario.setting(alloc).or(Err(ServeFault::Memory))?;
    let reported = reported_in(alloc, &setting, closed);
    drop(setting);
    reported
}

/// Like `reported`, but takes the world's setting.
fn reported_in(alloc: Global, setting: &Setting, closed: &Closed) -> Result<Vec<u8>, ServeFault>
    requires { length closed.now.books.items ≡ setting.now.place.dcs * (length setting.now.place.splits + 1) }
    ensures { IfOk result (λ text. IsTiedReport setting.now closed.now.books.items closed.now.trace text.items) }
{
    match tied_run(alloc, setting, &closed.books, &closed.trace) {
        Ok(run) => drop(run),
        Err(TieFault::Memory) => return Err(ServeFault::Memory),
        Err(TieFault::Untied { ticket }) => return Err(ServeFault::Untied { ticket }),
    }
    match report_of(alloc, closed.trace.history()) {
        Ok(report) => Ok(report),
        Err(Memory) => Err(ServeFault::Memory),
    }
}
