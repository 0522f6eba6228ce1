//! Senders and receivers, and the links between them.
ghost use Rattle.std.specs.Prelude.{◌≡◌, ◌≤◌, ◌-◌, All, IfOk, [], length, map};
ghost use Rattle.cops_link.specs.declared.ends.TheConstants.{MAX_CAPACITY};
ghost use Rattle.cops_link.specs.Link.{known_room, sent, taken, IsLink};
ghost use Rattle.cops_replication.specs.Making.{AreEnds, ArePaired, GainsEnds, rows};
ghost use Rattle.cops_replication.specs.Receiving.{ends};
ghost use Rattle.cops_replication.specs.Sending.{lanes};
ghost use Rattle.cops_replication.specs.Wiring.{AreJoined, AreReceivers, AreSenders, IsFreshIn, place_beside};

use crate::receiver::Receiver;
use crate::sender::Sender;
use cops_cluster::Share;
use cops_link::{LinkFault, LinkIn, LinkOut, link};
use cops_types::Memory;
use std::alloc::Global;

/// The parts of a cluster that replicate: a sender and a receiver for each data centre.
#[derive(Drop)]
pub struct Replicas {
    pub senders: Vec<Sender>,
    pub receivers: Vec<Receiver>,
}

/// Makes a sender and a receiver for each of `dcs` data centres, in order, with a link of this capacity from each
/// sender to the receiver of each other data centre. Each put is sent on each link `repeat` more times than once. The
/// receivers take the shares in order; if there are fewer shares than data centres, the last data centres have no
/// receiver. Returns `Memory` when memory runs out.
pub fn wired(
    alloc: Global,
    dcs: u8,
    capacity: u16,
    repeat: u8,
    shares: Vec<Share>,
) -> Result<Replicas, Memory>
    requires { (1 ≤ capacity) × (capacity ≤ MAX_CAPACITY) }
    ensures senders { IfOk result (λ r. AreSenders dcs (dcs - 1) capacity r.senders.items) }
    ensures repeat { IfOk result (λ r. All (λ s. s.repeat ≡ repeat) r.senders.items) }
    ensures receivers { IfOk result (λ r. length shares.items ≡ dcs → AreReceivers dcs shares.items r.receivers.items) }
    ensures joined { IfOk result (λ r. length shares.items ≡ dcs → AreJoined dcs (map lanes r.senders.items) (map ends r.receivers.items)) }
{
    let mut outs = no_ends(alloc, dcs)?;
    let senders = senders(alloc, dcs, capacity, repeat, &mut outs)?;
    let receivers = receivers(alloc, dcs, outs, shares)?;
    Ok(Replicas { senders, receivers })
}

/// An empty list for the taking ends of each data centre's links.
fn no_ends(alloc: Global, dcs: u8) -> Result<Vec<Vec<LinkOut>>, Memory>
    ensures length { IfOk result (λ outs. length outs.items ≡ dcs) }
    ensures none { IfOk result (λ outs. All (λ (v : _). v.items ≡ []) outs.items) }
{
    let mut outs = Vec::new(alloc);
    for _ in 0..dcs {
        outs.push(Vec::new(alloc))?;
    }
    Ok(outs)
}

/// The sender of each data centre, with a link to each other one. The taking ends are appended to the others' lists.
fn senders(
    alloc: Global,
    dcs: u8,
    capacity: u16,
    repeat: u8,
    outs: &mut [Vec<LinkOut>],
) -> Result<Vec<Sender>, Memory>
    requires capacity { (1 ≤ capacity) × (capacity ≤ MAX_CAPACITY) }
    requires length { length outs.old ≡ dcs }
    requires none { All (λ (v : _). v.items ≡ []) outs.old }
    ensures senders { IfOk result (λ s. AreSenders dcs (dcs - 1) capacity s.items) }
    ensures repeat { IfOk result (λ s. All (λ (x : _). x.repeat ≡ repeat) s.items) }
    ensures ends { IfOk result (λ _. AreEnds dcs dcs (rows outs.new)) }
    ensures joined { IfOk result (λ s. AreJoined dcs (map lanes s.items) (rows outs.new)) }
{
    let mut senders = Vec::new(alloc);
    for dc in 0..dcs {
        let links = links_from(alloc, dc, capacity, outs)?;
        senders.push(Sender::new(alloc, dc, links, repeat)?)?;
    }
    Ok(senders)
}

/// The links from a data centre to each other one. The taking ends are appended to the others' lists.
fn links_from(
    alloc: Global,
    from: u8,
    capacity: u16,
    outs: &mut [Vec<LinkOut>],
) -> Result<Vec<LinkIn>, Memory>
    requires { (1 ≤ capacity) × (capacity ≤ MAX_CAPACITY) }
    ensures length { IfOk result (λ ins. length ins.items ≡ place_beside from (length outs.old)) }
    ensures fresh { IfOk result (λ ins. All (IsFreshIn capacity) ins.items) }
    ensures gains { IfOk result (λ ins. GainsEnds from ins.items (rows outs.old) (rows outs.new)) }
{
    let mut ins = Vec::new(alloc);
    for to in 0..outs.len() {
        if to == usize::from(from) {
            continue;
        }
        let (sends, takes) = link_of(alloc, capacity)?;
        ins.push(sends)?;
        outs[to].push(takes)?;
    }
    Ok(ins)
}

/// A link on which nothing was sent or taken.
fn link_of(alloc: Global, capacity: u16) -> Result<(LinkIn, LinkOut), Memory>
    requires { (1 ≤ capacity) × (capacity ≤ MAX_CAPACITY) }
    ensures { IfOk result (λ r. IsLink r.0 r.1 × (sent r.0 ≡ []) × (taken r.1 ≡ []) × (known_room r.0 ≡ capacity)) }
{
    match link(alloc, usize::from(capacity)) {
        Ok(ends) => Ok(ends),
        Err(LinkFault::Memory) => Err(Memory),
        Err(LinkFault::BadCapacity) => unreachable!(),
    }
}

/// The receivers of the data centres, in order, as long as there are shares.
fn receivers(
    alloc: Global,
    dcs: u8,
    outs: Vec<Vec<LinkOut>>,
    shares: Vec<Share>,
) -> Result<Vec<Receiver>, Memory>
    requires { length outs.items ≡ dcs }
    ensures { IfOk result (λ r. length shares.items ≡ dcs → ArePaired dcs (rows outs.items) shares.items r.items) }
{
    let mut outs = outs.into_iter();
    let mut shares = shares.into_iter();
    let mut receivers = Vec::new(alloc);
    for dc in 0..dcs {
        let Some(links) = outs.next() else {
            break;
        };
        let Some(share) = shares.next() else {
            break;
        };
        receivers.push(Receiver::new(alloc, dc, links, share))?;
    }
    Ok(receivers)
}
