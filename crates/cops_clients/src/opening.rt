//! What a run starts with.
ghost use Rattle.std.specs.Prelude.{◌≡◌, ◌-◌, ◌<◌, All, IfOk, length, map};
ghost use Rattle.cops_scenario.specs.Scenario.{setting_of};
ghost use Rattle.cops_replication.specs.Wiring.{AreSenders};
ghost use Rattle.cops_clients.specs.Opening.{HasItsScript};
ghost use Rattle.cops_clients.specs.Callers.{AreTasksOf, AreReceiversOf};

use crate::clients::ClientTask;
use crate::state::RunState;
use cops_cluster::{Client, Cluster, Opened};
use cops_core::Setting;
use cops_replication::{Replicas, wired};
use cops_scenario::{Scenario, ScriptedClient};
use cops_types::Memory;
use std::alloc::Global;

/// What a run starts with: the state, each client with its script, and the senders and receivers.
#[derive(Drop)]
pub(crate) struct Opening<'a> {
    pub(crate) state: RunState,
    pub(crate) tasks: Vec<ClientTask<'a>>,
    pub(crate) replicas: Replicas,
}

/// What a run of a scenario starts with, in its setting. The links, the number of turns that a loop may make, the
/// retries of an operation, the repetitions of a put on a link, and the number of a receiver's late turns are those of
/// the scenario.
pub(crate) fn opened<'a>(
    alloc: Global,
    setting: &Setting,
    scenario: &'a Scenario,
) -> Result<Opening<'a>, Memory>
    requires { setting.now ≡ setting_of scenario.now }
    ensures format { IfOk result (λ o. o.state.cluster.format ≡ setting.now.format) }
    ensures place { IfOk result (λ o. o.state.cluster.place ≡ setting.now.place) }
    ensures turns { IfOk result (λ o. o.state.turns ≡ scenario.now.turns) }
    ensures retries { IfOk result (λ o. o.state.retries ≡ scenario.now.retries) }
    ensures hold { IfOk result (λ o. o.state.hold ≡ scenario.now.hold) }
    ensures repeat { IfOk result (λ o. All (λ s. s.repeat ≡ scenario.now.repeat) o.replicas.senders.items) }
    ensures clients { IfOk result (λ o. o.state.cluster.clients ≡ length setting.now.homes) }
    ensures tasks { IfOk result (λ o. AreTasksOf setting.now o.tasks.items) }
    ensures scripts { IfOk result (λ o. All (HasItsScript scenario.now.clients) o.tasks.items) }
    ensures receivers { IfOk result (λ o. AreReceiversOf setting.now o.replicas.receivers.items) }
    ensures senders { IfOk result (λ o. AreSenders setting.now.place.dcs (setting.now.place.dcs - 1) scenario.now.link o.replicas.senders.items) }
{
    let Opened {
        cluster,
        clients,
        shares,
    } = Cluster::of(alloc, setting)?;
    let tasks = match tasks(alloc, scenario.clients(), clients) {
        Ok(tasks) => tasks,
        Err(_) => {
            drop(cluster);
            drop(shares);
            return Err(Memory);
        }
    };
    let replicas = match wired(
        alloc,
        setting.dcs(),
        scenario.link(),
        scenario.repeat(),
        shares,
    ) {
        Ok(replicas) => replicas,
        Err(_) => {
            drop(cluster);
            drop(tasks);
            return Err(Memory);
        }
    };
    Ok(Opening {
        state: RunState::new(
            cluster,
            scenario.turns(),
            scenario.retries(),
            scenario.hold(),
        ),
        tasks,
        replicas,
    })
}

/// Each client, with the script at its number.
fn tasks(
    alloc: Global,
    scripted: &[ScriptedClient],
    clients: Vec<Client>,
) -> Result<Vec<ClientTask<'_>>, Memory>
    requires { All (λ c. c.number < length scripted.now) clients.items }
    ensures clients { IfOk result (λ tasks. map (λ j. j.client) tasks.items ≡ clients.items) }
    ensures scripts { IfOk result (λ tasks. All (HasItsScript scripted.now) tasks.items) }
{
    let mut tasks = Vec::new(alloc);
    for client in clients {
        let it = &scripted[usize::from(client.number())];
        tasks.push(ClientTask {
            client,
            script: &it.script,
        })?;
    }
    Ok(tasks)
}
