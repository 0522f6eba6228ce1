//! The nodes, each under a lock of its own.
ghost use Rattle.std.specs.Prelude.{◌≡◌, ◌≤◌, ◌<◌, ◌+◌, ◌*◌, ◌↔◌, IfOk, OnOk, [], length, vec_len};
ghost use Rattle.cops_types.specs.declared.limits.TheConstants.{MAX_CLIENTS, MAX_DCS, PLACES};
ghost use Rattle.cops_cluster.specs.Opening.{AreClientsAt, AreOfFormat, AreReceivers};

use crate::client::Client;
use crate::fault::OpenFault;
use crate::share::{Holder, Share};
use crate::spot::Spot;
use crate::tail::Tail;
use cops_context::Context;
use cops_node::{Book, IssuedPuts};
use cops_place::{Place, Setting};
use cops_record::Recorder;
use cops_types::{Format, Key, Memory, NodeStatus};
use std::alloc::{AllocError, Global};
use std::sync::atomic::AtomicU64;
use std::sync::{Mutex, Wait};

/// A cluster: its nodes, each under its own lock, ordered by data centre and place; one ticket counter; and the
/// recorder of what clients see. The limits are those of its format.
#[derive(Drop)]
pub struct Cluster {
    pub(crate) format: Format,
    pub(crate) place: Place,
    pub(crate) clients: u16,
    pub(crate) nodes: Vec<Mutex<Book>>,
    pub(crate) tickets: AtomicU64,
    pub(crate) recorder: Recorder,
    pub(crate) alloc: Global,
    ghost sized: { vec_len nodes ≡ place.dcs * (length place.splits + 1) },
    ghost counted: { recorder.clients ≡ clients },
}

/// A new cluster in which nothing has happened yet, its clients in order of their numbers, and one share for the
/// receiver of each data centre.
#[derive(Drop)]
pub struct Opened {
    pub cluster: Cluster,
    pub clients: Vec<Client>,
    pub shares: Vec<Share>,
}

impl Cluster {
    ghost use Rattle.std.specs.Prelude.{◌≡◌, ◌<◌, ◌≤◌, ◌+◌, ◌*◌, ◌↔◌, length, vec_len, IfOk, OnErr, IsErrOf, IsSome, IfSome, IfNone};
    ghost use Rattle.cops_types.specs.declared.limits.TheConstants.{MAX_CLOCK, MAX_DCS, PLACES};
    ghost use Rattle.cops_place.specs.Clients.{AreClients};
    ghost use Rattle.cops_place.specs.Place.{primary};
    ghost use Rattle.cops_cluster.specs.Opening.{AreClientsAt, AreOfFormat, AreReceivers};
    ghost use Rattle.cops_cluster.specs.Cluster.{IsNode, IsPutsFrom};

    /// Opens a cluster of format 1 with these data centres and nodes, and one client in each data centre that
    /// `client_dcs` lists.
    ///
    /// Errors: `BadClient` where one of the listed data centres does not exist, or there are more than 65,535 clients;
    /// `Memory` when memory runs out.
    pub fn open(alloc: Global, place: Place, client_dcs: Vec<u8>) -> Result<Opened, OpenFault>
        ensures format { IfOk result (λ o. o.cluster.format ≡ Format.One) }
        ensures place { IfOk result (λ o. o.cluster.place ≡ place) }
        ensures clients { IfOk result (λ o. AreClientsAt client_dcs.items (length client_dcs.items) o.clients.items) }
        ensures formats { IfOk result (λ o. AreOfFormat Format.One o.clients.items) }
        ensures count { IfOk result (λ o. o.cluster.clients ≡ length client_dcs.items) }
        ensures shares { IfOk result (λ o. AreReceivers place.dcs o.shares.items) }
        ensures bad { IsErrOf result OpenFault.BadClient ↔ (AreClients place client_dcs.items → ⊥) }
    {
        Cluster::open_in(Format::One, alloc, place, client_dcs)
    }

    /// Like `open`, but for a given format. Format 2 has deletions, longer values and larger contexts. Returns the
    /// errors of `open`, `BadClient` and `Memory`.
    pub fn open_in(
        format: Format,
        alloc: Global,
        place: Place,
        client_dcs: Vec<u8>,
    ) -> Result<Opened, OpenFault>
        ensures format { IfOk result (λ o. o.cluster.format ≡ format) }
        ensures place { IfOk result (λ o. o.cluster.place ≡ place) }
        ensures clients { IfOk result (λ o. AreClientsAt client_dcs.items (length client_dcs.items) o.clients.items) }
        ensures formats { IfOk result (λ o. AreOfFormat format o.clients.items) }
        ensures count { IfOk result (λ o. o.cluster.clients ≡ length client_dcs.items) }
        ensures shares { IfOk result (λ o. AreReceivers place.dcs o.shares.items) }
        ensures bad { IsErrOf result OpenFault.BadClient ↔ (AreClients place client_dcs.items → ⊥) }
    {
        match Setting::new_in(format, place, client_dcs) {
            Some(setting) => Cluster::of(alloc, &setting).or(Err(OpenFault::Memory)),
            None => Err(OpenFault::BadClient),
        }
    }

    /// Opens a cluster with the format, data centres, nodes and clients of a setting. Returns `Memory` when memory runs
    /// out.
    pub fn of(alloc: Global, setting: &Setting) -> Result<Opened, Memory>
        ensures format { IfOk result (λ o. o.cluster.format ≡ setting.now.format) }
        ensures place { IfOk result (λ o. o.cluster.place ≡ setting.now.place) }
        ensures clients { IfOk result (λ o. AreClientsAt setting.now.homes (length setting.now.homes) o.clients.items) }
        ensures formats { IfOk result (λ o. AreOfFormat setting.now.format o.clients.items) }
        ensures count { IfOk result (λ o. o.cluster.clients ≡ length setting.now.homes) }
        ensures shares { IfOk result (λ o. AreReceivers setting.now.place.dcs o.shares.items) }
    {
        let nodes = opened_nodes(alloc, setting.dcs(), setting.nodes())?;
        let recorder = Recorder::new_in(setting.format(), alloc, setting.clients() as u16)?;
        let clients = opened_clients(setting.format(), alloc, setting.homes())?;
        let shares = opened_shares(alloc, setting.dcs())?;
        let cluster = Cluster {
            format: setting.format(),
            place: setting.place().clone()?,
            clients: setting.clients() as u16,
            nodes,
            tickets: AtomicU64::new(0),
            recorder,
            alloc,
        };
        Ok(Opened {
            cluster,
            clients,
            shares,
        })
    }

    /// How many data centres there are, 1 to 16.
    pub fn dcs(&self) -> u8
        ensures value { result ≡ self.now.place.dcs }
        ensures range { (1 ≤ result) × (result ≤ MAX_DCS) }
    {
        self.place.dcs()
    }

    /// How many nodes each data centre has, 1 to 64.
    pub fn nodes(&self) -> u8
        ensures value { result ≡ length self.now.place.splits + 1 }
        ensures range { (1 ≤ result) × (result ≤ PLACES) }
    {
        self.place.nodes()
    }

    /// The status of the node at a place of a data centre; `None` where there is no such node.
    pub fn status<R: Wait>(&self, rt: &R, dc: u8, place: u8) -> Option<NodeStatus>
        ensures there { IsSome result ↔ IsNode self.now dc place }
        ensures clock { IfSome result (λ status. status.clock ≤ MAX_CLOCK) }
    {
        let spot = self.spot_at(dc, place)?;
        let status = self.lock_of(spot).lock(rt).node().status();
        Some(status)
    }

    /// Copies of the puts and deletions that were issued at the node at a place of a data centre, starting at entry
    /// `from` of its log, and the length of that log, which is where the next copies start. `None` where there is no
    /// such node. Returns `Memory` when memory runs out.
    pub fn puts_from<R: Wait>(
        &self,
        rt: &R,
        dc: u8,
        place: u8,
        from: usize,
    ) -> Result<Option<IssuedPuts>, Memory>
        ensures node { IfOk result (λ puts. IsSome puts ↔ IsNode self.now dc place) }
        ensures puts { IfOk result (λ puts. IfSome puts (IsPutsFrom from)) }
        ensures err { OnErr result (IsNode self.now dc place) }
    {
        let Some(spot) = self.spot_at(dc, place) else {
            return Ok(None);
        };
        let puts = self.lock_of(spot).lock(rt).puts_from(self.alloc, from)?;
        Ok(Some(puts))
    }

    /// Copies of the records of what clients have seen so far, in order of arrival, starting at `place`. Returns
    /// `Memory` when memory runs out.
    pub fn records_from<R: Wait>(&self, rt: &R, place: usize) -> Result<Tail, Memory>
        ensures place { IfOk result (λ tail. tail.place ≡ place) }
    {
        let records = self.recorder.copy_from(rt, place)?;
        Ok(Tail { place, records })
    }

    /// The node at a place of a data centre, if it exists.
    pub(crate) fn spot_at(&self, dc: u8, place: u8) -> Option<Spot>
        ensures some { IfSome result (λ spot. (spot.dc ≡ dc) × (spot.place ≡ place) × IsNode self.now dc place) }
        ensures none { IfNone result (IsNode self.now dc place → ⊥) }
    {
        if dc >= self.place.dcs() {
            return None;
        }
        if place >= self.place.nodes() {
            return None;
        }
        Some(Spot { dc, place })
    }

    /// The node of a key in a data centre, if that data centre exists.
    pub(crate) fn spot_of(&self, dc: u8, key: &Key) -> Option<Spot>
        ensures some { IfSome result (λ spot. (spot.dc ≡ dc) × (spot.place ≡ primary self.now.place.splits key.now) × IsNode self.now spot.dc spot.place) }
        ensures none { IfNone result (self.now.place.dcs ≤ dc) }
    {
        if dc >= self.place.dcs() {
            return None;
        }
        let place = self.place.primary(key);
        Some(Spot { dc, place })
    }

    /// The lock of a node.
    pub(crate) fn lock_of(&self, spot: Spot) -> &Mutex<Book>
        requires { IsNode self.now spot.dc spot.place }
    {
        let nodes = usize::from(self.place.nodes());
        let at = usize::from(spot.dc) * nodes + usize::from(spot.place);
        &self.nodes[at]
    }
}

/// The books of new nodes, ordered by data centre and place.
fn opened_nodes(alloc: Global, dcs: u8, places: u8) -> Result<Vec<Mutex<Book>>, AllocError>
    requires dcs { dcs ≤ MAX_DCS }
    requires places { places ≤ PLACES }
    ensures { IfOk result (λ nodes. vec_len nodes ≡ dcs * places) }
{
    let mut nodes = Vec::new(alloc);
    for dc in 0..dcs {
        add_nodes(alloc, &mut nodes, dc, places)?;
    }
    Ok(nodes)
}

/// Adds the books of one more data centre.
fn add_nodes(
    alloc: Global,
    nodes: &mut Vec<Mutex<Book>>,
    dc: u8,
    places: u8,
) -> Result<(), AllocError>
    requires dc { dc < MAX_DCS }
    requires places { places ≤ PLACES }
    ensures { OnOk result (vec_len nodes.new ≡ vec_len nodes.old + places) }
{
    for place in 0..places {
        let spot = Spot { dc, place };
        nodes.push(Mutex::new(Book::open(alloc, spot.number())))?;
    }
    Ok(())
}

/// One client in each of these data centres, each with an empty context and an empty share.
fn opened_clients(format: Format, alloc: Global, dcs: &[u8]) -> Result<Vec<Client>, AllocError>
    requires { length dcs.now ≤ MAX_CLIENTS }
    ensures clients { IfOk result (λ clients. AreClientsAt dcs.now (length dcs.now) clients.items) }
    ensures formats { IfOk result (λ clients. AreOfFormat format clients.items) }
{
    let mut clients = Vec::with_capacity(alloc, dcs.len())?;
    for k in 0..dcs.len() {
        let number = k as u16;
        clients.push(Client {
            number,
            dc: dcs[k],
            context: Context::new_in(format, alloc),
            share: empty_share(alloc, Holder::Client(number)),
        })?;
    }
    Ok(clients)
}

/// A share for the receiver of each data centre.
fn opened_shares(alloc: Global, dcs: u8) -> Result<Vec<Share>, AllocError>
    ensures { IfOk result (λ shares. AreReceivers dcs shares.items) }
{
    let mut shares = Vec::new(alloc);
    for dc in 0..dcs {
        shares.push(empty_share(alloc, Holder::Receiver(dc)))?;
    }
    Ok(shares)
}

fn empty_share(alloc: Global, holder: Holder) -> Share
    ensures holder { result.holder ≡ holder }
    ensures entries { result.entries.items ≡ [] }
{
    Share {
        holder,
        entries: Vec::new(alloc),
    }
}
