//! A client of a cluster, on one thread.

use cops_cluster::{Client, CloseFault, Closed, Cluster, OpenFault, Opened, Share};
use cops_node::Outcome;
use cops_place::Place;
use cops_types::{Key, Memory, OpenGate, Refusal, TypeFault, Value, Version};
use std::alloc::Global;
use std::sync::Wait;

/// A cluster of one node with one client, or nothing if it is refused for another reason than memory.
fn opened(alloc: Global) -> Result<Option<Opened>, Memory> {
    let homes = Vec::from_slice(alloc, &[0])?;
    let Ok(place) = Place::new(1, Vec::new(alloc)) else {
        return Ok(None);
    };
    match Cluster::open(alloc, place, homes) {
        Ok(opened) => Ok(Some(opened)),
        Err(OpenFault::Memory) => Err(Memory),
        Err(_) => Ok(None),
    }
}

fn key(alloc: Global) -> Result<Key, Memory> {
    Key::new(alloc, b"a key of more bytes than lie in it").or(Err(Memory))
}

fn value(alloc: Global) -> Result<Value, Memory> {
    Value::new(alloc, b"a value of more bytes than lie in it").or(Err(Memory))
}

/// Whether the value was got, at this version.
fn is_got(alloc: Global, answer: &Option<Outcome>, version: Version) -> Result<bool, Memory> {
    Ok(*answer == Some(Outcome::Got(value(alloc)?, version)))
}

/// A client, its cluster, and the allocator for what it passes.
#[derive(Drop)]
struct Caller {
    alloc: Global,
    cluster: Cluster,
    client: Client,
}

impl Caller {
    /// Puts if `puts` holds, and gets otherwise.
    fn step<R: Wait>(&mut self, rt: &R, puts: bool) -> Result<Option<Outcome>, Memory> {
        let key = key(self.alloc)?;
        let answer = if puts {
            let value = value(self.alloc)?;
            self.cluster
                .put(rt, &mut self.client, &OpenGate, key, value)
        } else {
            self.cluster.get(rt, &mut self.client, &OpenGate, key)
        };
        Ok(answer.ok())
    }

    /// How many entries the client has.
    fn entries(&mut self) -> usize {
        self.client.share().entries().len()
    }

    /// The answer to a put or a get. One that is refused because memory ran out, and has no entry, is tried again.
    fn surely<R: Wait>(&mut self, rt: &R, puts: bool) -> Result<Option<Outcome>, Memory> {
        let before = self.entries();
        let answer = self.step(rt, puts)?;
        let is_refused = answer == Some(Outcome::Refused(Refusal::Memory));
        if !is_refused || self.entries() != before {
            return Ok(answer);
        }
        drop(answer);
        self.step(rt, puts)
    }

    /// Whether the client gets what it put, and each of the two operations has its entry.
    fn gets_what_it_put<R: Wait>(&mut self, rt: &R) -> Result<bool, Memory> {
        let Ok(version) = Version::new(1, 0) else {
            return Ok(false);
        };
        let put = self.surely(rt, true)?;
        let has_put = put == Some(Outcome::PutDone(version));
        drop(put);
        let got = self.surely(rt, false)?;
        let has_got = is_got(self.alloc, &got, version);
        drop(got);
        Ok(has_put && has_got? && self.entries() == 2)
    }
}

/// The remains of a closed cluster. Closing is tried again if memory runs out.
fn closed(cluster: Cluster, shares: Vec<Share>) -> Option<Closed> {
    match cluster.close(shares) {
        Ok(closed) => Some(closed),
        Err(CloseFault::Memory(cluster, shares)) => cluster.close(shares).ok(),
        Err(_) => None,
    }
}

/// Whether the trace of a cluster has this number of operations once the cluster is closed.
fn are_reported(cluster: Cluster, shares: Vec<Share>, operations: usize) -> bool {
    match closed(cluster, shares) {
        Some(closed) => {
            let are = closed.trace.len() == operations;
            drop(closed);
            are
        }
        None => false,
    }
}

/// Whether the trace has two operations, once the client's share is added to the others.
fn is_reported(caller: Caller, mut shares: Vec<Share>) -> Result<bool, Memory> {
    let Caller {
        cluster,
        client,
        ..
    } = caller;
    shares.push(client.into_share())?;
    Ok(are_reported(cluster, shares, 2))
}

/// Whether a client gets what it put, and both operations are in the trace in the end.
fn is_answered<R: Wait>(rt: &R, mut caller: Caller, shares: Vec<Share>) -> Result<bool, Memory> {
    match caller.gets_what_it_put(rt) {
        Ok(true) => is_reported(caller, shares),
        answer => {
            drop(caller);
            drop(shares);
            answer
        }
    }
}

/// Like `is_answered`, with the last client of an opened cluster.
fn is_reported_in<R: Wait>(rt: &R, alloc: Global, opened: Opened) -> Result<bool, Memory> {
    let Opened {
        cluster,
        mut clients,
        shares,
    } = opened;
    let last = clients.pop();
    drop(clients);
    match last {
        Some(client) => {
            let caller = Caller {
                alloc,
                cluster,
                client,
            };
            is_answered(rt, caller, shares)
        }
        None => {
            drop(cluster);
            drop(shares);
            Ok(false)
        }
    }
}

/// Whether a client of a cluster gets what it put, and both operations are in the trace in the end.
pub fn answers<R: Wait>(rt: &R, alloc: Global) -> Result<bool, Memory> {
    match opened(alloc)? {
        Some(opened) => is_reported_in(rt, alloc, opened),
        None => Ok(false),
    }
}
