use crate::threads::building::{key, opened_in, pair};
use cops_cluster::*;
use cops_link::*;
use cops_node::{NodeEvent, Outcome};
use cops_replication::*;
use cops_testing::{HoldsAnswers, HoldsSteps};
use cops_types::{Format, Gate, GateHeld, Memory, OpenGate, PutRecord, TypeFault};
use std::alloc::Global;
use std::sync::Wait;
use std::test::Fail;

/// Two data centres of one node each, a client in each, the writer and the reader, and the receiver of the second one.
#[derive(Drop)]
struct Scene {
    cluster: Cluster,
    clients: Vec<Client>,
    receiver: Receiver,
}

/// A scene together with the sender of the first data centre.
#[derive(Drop)]
struct Both {
    scene: Scene,
    sender: Sender,
}

/// The result of a turn or a drain as a number: how much was done, or for a fault a number above all those.
const MEMORY: u32 = 1_000;

const HELD: u32 = 1_001;

const TURN_LIMIT: u32 = 1_003;

fn fault_number(fault: TurnFault) -> u32 {
    match fault {
        TurnFault::Memory => MEMORY,
        TurnFault::Held => HELD,
        TurnFault::TurnLimit => TURN_LIMIT,
    }
}

fn turn_number(turn: Turn) -> u32 {
    match turn {
        Turn::Did(count) => count,
        Turn::Idle => 0,
    }
}

/// A scene whose receiver takes from these links.
fn with_receiver(alloc: Global, opened: Opened, links: Vec<LinkOut>) -> Result<Scene, Fail> {
    if opened.clients.len() != 2 {
        drop(opened);
        return Err(Fail::new("a client is not there"));
    }
    let Opened {
        cluster,
        clients,
        mut shares,
    } = opened;
    let Some(share) = shares.pop() else {
        drop(cluster);
        return Err(Fail::new("a share is not there"));
    };
    Ok(Scene {
        cluster,
        clients,
        receiver: Receiver::new(alloc, 1, links, share),
    })
}

/// A scene whose receiver takes from this link.
fn set_up(alloc: Global, link: LinkOut) -> Result<Scene, Fail> {
    let mut links = Vec::new(alloc);
    links.push(link)?;
    let opened = opened_in(Format::Two, alloc, 2, &[0, 1])?;
    with_receiver(alloc, opened, links)
}

/// The sender of the first data centre, which sends into this link.
fn sender_into(alloc: Global, link: LinkIn) -> Result<Sender, Memory> {
    let mut links = Vec::new(alloc);
    links.push(link)?;
    Sender::new(alloc, 0, links, 0)
}

/// The scene together with a sender into this link.
fn with_sender(alloc: Global, scene: Scene, link: LinkIn) -> Result<Both, Fail> {
    match sender_into(alloc, link) {
        Ok(sender) => Ok(Both { scene, sender }),
        Err(fault) => {
            drop(scene);
            Err(Fail::from(fault))
        }
    }
}

/// A scene with a sender and a receiver at the two ends of a link of this capacity.
fn joined(alloc: Global, capacity: usize) -> Result<Both, Fail> {
    let (link_in, link_out) = link(alloc, capacity)?;
    match set_up(alloc, link_out) {
        Ok(scene) => with_sender(alloc, scene, link_in),
        Err(fault) => {
            drop(link_in);
            Err(fault)
        }
    }
}

/// What a get finds: 1 for a value, 2 for a deletion, otherwise 0. Drops the answer.
fn shown(answer: Result<Outcome, GateHeld>) -> u32 {
    let shown = match &answer {
        Ok(Outcome::Got(_, _)) => 1,
        Ok(Outcome::Gone(_)) => 2,
        _ => 0,
    };
    drop(answer);
    shown
}

impl Scene {
    /// The writer puts `1` at a key.
    fn put<R: Wait>(&mut self, rt: &R, alloc: Global, byte: u8) -> Result<(), TypeFault> {
        let Some(writer) = self.clients.get_mut(0) else {
            return Ok(());
        };
        let (key, value) = pair(alloc, byte)?;
        drop(self.cluster.put(rt, writer, &OpenGate, key, value));
        Ok(())
    }

    /// The writer deletes a key.
    fn del<R: Wait>(&mut self, rt: &R, alloc: Global, byte: u8) -> Result<(), TypeFault> {
        let Some(writer) = self.clients.get_mut(0) else {
            return Ok(());
        };
        let key = key(alloc, byte)?;
        drop(self.cluster.del(rt, writer, &OpenGate, key));
        Ok(())
    }

    /// The writer puts `1` at each of these keys in order: each put depends on the one before.
    fn put_all<R: Wait>(&mut self, rt: &R, alloc: Global, keys: &[u8]) -> Result<(), TypeFault> {
        for byte in keys {
            self.put(rt, alloc, *byte)?;
        }
        Ok(())
    }

    /// What the reader finds at the key: 1 for a value, 2 for a deletion, otherwise 0.
    fn shows<R: Wait>(&mut self, rt: &R, alloc: Global, byte: u8) -> u32 {
        let Some(reader) = self.clients.get_mut(1) else {
            return 0;
        };
        match key(alloc, byte) {
            Ok(key) => shown(self.cluster.get(rt, reader, &OpenGate, key)),
            Err(_) => 0,
        }
    }

    /// A turn of the receiver.
    fn turn<R: Wait, G: Gate>(&mut self, rt: &R, gate: &G) -> u32 {
        match self.receiver.turn(rt, &self.cluster, gate) {
            Ok(turn) => turn_number(turn),
            Err(fault) => fault_number(fault),
        }
    }

    /// Three turns of the receiver.
    fn turns<R: Wait, G: Gate>(&mut self, rt: &R, gate: &G) -> [u32; 3] {
        [
            self.turn(rt, gate),
            self.turn(rt, gate),
            self.turn(rt, gate),
        ]
    }

    /// The results of three turns of the receiver, what the reader then finds at the key, and the number of entries of
    /// the share.
    fn reported<R: Wait>(&mut self, rt: &R, alloc: Global, byte: u8) -> [u32; 5] {
        let [first, second, third] = self.turns(rt, &OpenGate);
        let shown = self.shows(rt, alloc, byte);
        [first, second, third, shown, self.entries()]
    }

    /// The number of entries of the receiver's share.
    fn entries(&mut self) -> u32 {
        self.receiver.share().entries().len().min(1_000) as u32
    }

    /// Makes at most `turns` turns, until nothing is pending.
    fn drain<R: Wait, G: Gate>(&mut self, rt: &R, gate: &G, turns: u32) -> u32 {
        match self.receiver.drain(rt, &self.cluster, gate, turns) {
            Ok(()) => 0,
            Err(fault) => fault_number(fault),
        }
    }

    /// Sends the puts that were issued in the first data centre in reverse order.
    fn send_backwards<R: Wait>(
        &mut self,
        rt: &R,
        alloc: Global,
        link: &mut LinkIn,
    ) -> Result<(), Memory> {
        let Some(issued) = self.cluster.puts_from(rt, 0, 0, 0)? else {
            return Ok(());
        };
        let sent = send_backwards(alloc, &issued.puts, link);
        drop(issued);
        sent
    }

    /// The writer puts at these keys, and the puts are sent in reverse order.
    fn put_backwards<R: Wait>(
        &mut self,
        rt: &R,
        alloc: Global,
        keys: &[u8],
        link: &mut LinkIn,
    ) -> Result<(), Fail> {
        self.put_all(rt, alloc, keys)?;
        self.send_backwards(rt, alloc, link)?;
        Ok(())
    }
}

/// Sends these puts in reverse order.
fn send_backwards(alloc: Global, puts: &[PutRecord], link: &mut LinkIn) -> Result<(), Memory> {
    for put in puts.iter().rev() {
        let frame = Frame::of(alloc, put)?;
        drop(link.send(frame));
    }
    Ok(())
}

impl Both {
    /// A turn of the sender.
    fn send<R: Wait>(&mut self, rt: &R) -> u32 {
        match self.sender.turn(rt, &self.scene.cluster) {
            Ok(turn) => turn_number(turn),
            Err(_) => MEMORY,
        }
    }

    /// Two turns of the sender.
    fn sends<R: Wait>(&mut self, rt: &R) -> [u32; 2] {
        [self.send(rt), self.send(rt)]
    }

    /// Two turns of the sender, a drain of it that finds the link full, and three rounds, each a drain of the receiver
    /// and a turn of the sender.
    fn one_by_one<R: Wait>(&mut self, rt: &R) -> [u32; 6] {
        let [first, second] = self.sends(rt);
        let mut reported = [first, second, self.drain(rt, 2), 0, 0, 0];
        for k in 3..6 {
            let drained = self.scene.drain(rt, &OpenGate, 9);
            reported[k] = drained.saturating_add(self.send(rt));
        }
        reported
    }

    /// Makes at most `turns` turns of the sender, until nothing is left to send.
    fn drain<R: Wait>(&mut self, rt: &R, turns: u32) -> u32 {
        match self.sender.drain(rt, &self.scene.cluster, turns) {
            Ok(()) => 0,
            Err(fault) => fault_number(fault),
        }
    }
}

/// A scene in which the writer has put at these keys, and the receiver's link has the puts in reverse order.
fn backwards<R: Wait>(rt: &R, alloc: Global, keys: &[u8]) -> Result<Scene, Fail> {
    let (link_in, link_out) = link(alloc, MAX_CAPACITY)?;
    match set_up(alloc, link_out) {
        Ok(scene) => sent_backwards(rt, alloc, keys, scene, link_in),
        Err(fault) => {
            drop(link_in);
            Err(fault)
        }
    }
}

/// Puts at these keys in a scene, and sends the puts in reverse order through the other end of the receiver's link.
fn sent_backwards<R: Wait>(
    rt: &R,
    alloc: Global,
    keys: &[u8],
    mut scene: Scene,
    mut link: LinkIn,
) -> Result<Scene, Fail> {
    let sent = scene.put_backwards(rt, alloc, keys, &mut link);
    drop(link);
    match sent {
        Ok(()) => Ok(scene),
        Err(fault) => {
            drop(scene);
            Err(fault)
        }
    }
}

/// Whether two puts arrive in one turn, and are settled in the next.
fn come_over<R: Wait>(rt: &R, alloc: Global, joined: &mut Both) -> Result<bool, TypeFault> {
    joined.scene.put_all(rt, alloc, b"xy")?;
    let sent = joined.sends(rt);
    Ok(sent == [2, 0] && joined.scene.reported(rt, alloc, b'y') == [2, 3, 0, 1, 6])
}

#[test]
fn a_put_comes_into_the_other_data_centre(rt: HostRuntime) -> Result<(), Fail> {
    let mut joined = joined(rt.alloc(), 16)?;
    let come_over = come_over(&rt, rt.alloc(), &mut joined);
    drop(joined);
    assert!(rt; come_over?);
    Ok(())
}

/// Whether a put and the deletion of its key arrive in one turn, and are settled in the next.
fn deletion_comes_over<R: Wait>(
    rt: &R,
    alloc: Global,
    joined: &mut Both,
) -> Result<bool, TypeFault> {
    joined.scene.put(rt, alloc, b'x')?;
    joined.scene.del(rt, alloc, b'x')?;
    let sent = joined.sends(rt);
    Ok(sent == [2, 0] && joined.scene.reported(rt, alloc, b'x') == [2, 3, 0, 2, 6])
}

#[test]
fn a_deletion_comes_into_the_other_data_centre(rt: HostRuntime) -> Result<(), Fail> {
    let mut joined = joined(rt.alloc(), 16)?;
    let come_over = deletion_comes_over(&rt, rt.alloc(), &mut joined);
    drop(joined);
    assert!(rt; come_over?);
    Ok(())
}

/// Whether a put waits in one turn for the put that comes after it, and is settled in the next.
fn waits<R: Wait>(rt: &R, alloc: Global, scene: &mut Scene) -> bool {
    scene.reported(rt, alloc, b'y') == [1, 4, 0, 1, 7]
}

#[test]
fn a_put_waits_for_its_dependency(rt: HostRuntime) -> Result<(), Fail> {
    let mut scene = backwards(&rt, rt.alloc(), b"xy")?;
    let waits = waits(&rt, rt.alloc(), &mut scene);
    drop(scene);
    assert!(rt; waits);
    Ok(())
}

/// Whether the entry is a question.
fn asks(made: &Made) -> bool {
    matches!(&made.entry.event, NodeEvent::Ask { .. })
}

/// The number of questions among these entries.
fn questions(entries: &[Made]) -> usize {
    entries.iter().filter(|made| asks(made)).count()
}

/// Fifty keys.
fn fifty() -> [u8; 50] {
    let mut keys = [0; 50];
    for k in 0..50 {
        keys[k] = k as u8;
    }
    keys
}

/// Whether a drain of the receiver ends in time, with two questions for each dependency.
fn asks_twice<R: Wait>(rt: &R, scene: &mut Scene) -> bool {
    scene.drain(rt, &OpenGate, 51) == 0
        && scene.entries() == 50 + 98 + 49 + 50
        && questions(scene.receiver.share().entries()) == 98
}

#[test]
fn fifty_puts_backwards_take_two_questions_each(rt: HostRuntime) -> Result<(), Fail> {
    let mut scene = backwards(&rt, rt.alloc(), &fifty())?;
    let asks_twice = asks_twice(&rt, &mut scene);
    drop(scene);
    assert!(rt; asks_twice);
    Ok(())
}

/// Whether the clocks of the puts that were delivered are 1, 2 and so on, up to this one.
fn are_in_order(entries: &[Made], last: u64) -> bool {
    let mut before = 0;
    for made in entries {
        if let NodeEvent::Deliver(put) = &made.entry.event {
            let clock = put.version.clock();
            if clock <= before || clock - before != 1 {
                return false;
            }
            before = clock;
        }
    }
    before == last
}

/// Whether three puts arrive one by one, in order.
fn come_in_order<R: Wait>(rt: &R, alloc: Global, joined: &mut Both) -> Result<bool, TypeFault> {
    joined.scene.put_all(rt, alloc, b"abc")?;
    let reported = joined.one_by_one(rt);
    let in_order = are_in_order(joined.scene.receiver.share().entries(), 3);
    Ok(reported == [1, 0, TURN_LIMIT, 1, 1, 0] && in_order)
}

#[test]
fn a_link_of_one_frame_keeps_the_order(rt: HostRuntime) -> Result<(), Fail> {
    let mut joined = joined(rt.alloc(), 1)?;
    let in_order = come_in_order(&rt, rt.alloc(), &mut joined);
    drop(joined);
    assert!(rt; in_order?);
    Ok(())
}

/// Holds each step of a receiver under the node's lock.
const HOLDING: HoldsSteps = HoldsSteps { client: RECEIVER };

/// Holds each caller of a receiver's step after the node's answer.
const HOLDING_AFTER: HoldsAnswers = HoldsAnswers { client: RECEIVER };

/// The results of a receiver that both gates hold.
fn held<R: Wait>(rt: &R, scene: &mut Scene) -> [u32; 2] {
    [scene.drain(rt, &HOLDING, 9), scene.turn(rt, &HOLDING_AFTER)]
}

/// Whether both gates hold the receiver, and the steps that were held happen in the turns after.
fn loses_nothing<R: Wait>(rt: &R, alloc: Global, scene: &mut Scene) -> bool {
    held(rt, scene) == [HELD, HELD] && scene.reported(rt, alloc, b'y') == [5, 0, 0, 1, 7]
}

#[test]
fn a_gate_holds_and_nothing_is_lost(rt: HostRuntime) -> Result<(), Fail> {
    let mut scene = backwards(&rt, rt.alloc(), b"xy")?;
    let loses_nothing = loses_nothing(&rt, rt.alloc(), &mut scene);
    drop(scene);
    assert!(rt; loses_nothing);
    Ok(())
}

/// Drains of no turn, of three turns and of one turn.
fn drains<R: Wait>(rt: &R, scene: &mut Scene) -> [u32; 3] {
    [
        scene.drain(rt, &OpenGate, 0),
        scene.drain(rt, &OpenGate, 3),
        scene.drain(rt, &OpenGate, 1),
    ]
}

/// Whether three turns are too few for three puts that arrive in reverse order, and one more is enough.
fn reaches_limit<R: Wait>(rt: &R, alloc: Global, scene: &mut Scene) -> bool {
    drains(rt, scene) == [TURN_LIMIT, TURN_LIMIT, 0] && scene.shows(rt, alloc, b'z') == 1
}

#[test]
fn a_limit_of_turns(rt: HostRuntime) -> Result<(), Fail> {
    let mut scene = backwards(&rt, rt.alloc(), b"xyz")?;
    let reaches_limit = reaches_limit(&rt, rt.alloc(), &mut scene);
    drop(scene);
    assert!(rt; reaches_limit);
    Ok(())
}

/// The results of drains where there is nothing to send and to settle, and the number of entries.
fn nothing<R: Wait>(rt: &R, joined: &mut Both) -> [u32; 3] {
    [
        joined.drain(rt, 1),
        joined.scene.drain(rt, &OpenGate, 1),
        joined.scene.entries(),
    ]
}

/// The number of entries of the receiver's share after sender and receiver have ended.
fn left(both: Both) -> usize {
    let Both { scene, sender } = both;
    sender.finish();
    let Scene {
        cluster,
        clients,
        receiver,
    } = scene;
    let share = receiver.into_share();
    drop(cluster);
    drop(clients);
    let left = share.entries().len();
    drop(share);
    left
}

#[test]
fn what_is_not_there_is_drained(rt: HostRuntime) -> Result<(), Fail> {
    let mut joined = joined(rt.alloc(), 1)?;
    let reported = nothing(&rt, &mut joined);
    let left = left(joined);
    assert!(rt; reported == [0, 0, 0]);
    assert!(rt; left == 0);
    Ok(())
}
