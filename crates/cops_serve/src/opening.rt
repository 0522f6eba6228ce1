//! Opening a scenario's cluster behind the front door.
use crate::front_end::FrontEnd;
use cops_cluster::{Cluster, Opened};
use cops_replication::{Replicas, wired};
use cops_scenario::Scenario;
use cops_types::Memory;
use std::alloc::Global;

impl FrontEnd {
    ghost use Rattle.std.specs.Prelude.{IfOk};
    ghost use Rattle.cops_serve.specs.Opening.{IsOpened};

    /// Opens a scenario's cluster, in which nothing has happened and no client has greeted. Returns `Memory` when
    /// memory runs out.
    pub fn open(alloc: Global, scenario: &Scenario) -> Result<FrontEnd, Memory>
        ensures { IfOk result (IsOpened scenario.now) }
    {
        let Opened {
            cluster,
            clients,
            shares,
        } = Cluster::of(alloc, &scenario.setting(alloc)?)?;
        let Replicas { senders, receivers } = wired(
            alloc,
            cluster.dcs(),
            scenario.link(),
            scenario.repeat(),
            shares,
        )?;
        Ok(FrontEnd {
            format: scenario.format(),
            turns: scenario.turns(),
            cluster,
            clients,
            senders,
            receivers,
            greeted: None,
            calls: Vec::new(alloc),
            ended: 0,
            room: None,
            alloc,
        })
    }
}
