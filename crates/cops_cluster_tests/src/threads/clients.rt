use crate::threads::building::*;
use cops_cluster::*;
use cops_node::{Node, Outcome};
use cops_testing::{HoldsSteps, Meeting};
use cops_types::{
    Dep, Deps, Format, Gate, GateHeld, OpenGate, Point, PutRecord, Refusal, TypeFault, Version,
};
use std::alloc::Global;
use std::process::Abort;
use std::sync::Wait;
use std::test::Fail;
use std::thread;
use std::thread::Threads;

/// A word for an outcome. A put, a deletion and a get have one only if the version is `of`, and the value 1.
fn word(outcome: &Outcome, of: Version) -> &'static str {
    match outcome {
        Outcome::PutDone(version) if *version == of => "put",
        Outcome::Deleted(version) if *version == of => "deleted",
        Outcome::Gone(version) if *version == of => "gone",
        Outcome::Got(value, version) if *version == of && value.as_bytes() == b"1".as_slice() => {
            "got"
        }
        Outcome::Missed => "missed",
        Outcome::Held => "waits",
        Outcome::Repeat => "repeat",
        Outcome::Marked => "marked",
        Outcome::Settled => "settled",
        Outcome::Refused(Refusal::UnknownDc) => "no data centre",
        Outcome::Refused(Refusal::UnknownClient) => "no client",
        Outcome::Refused(Refusal::NoYes) => "no yes",
        Outcome::Refused(Refusal::NotInFormat) => "not in format",
        _ => "other",
    }
}

/// The word for an answer. Drops the answer.
pub fn reported(answer: Result<Outcome, GateHeld>, of: Version) -> &'static str {
    let reported = match &answer {
        Ok(outcome) => word(outcome, of),
        Err(GateHeld) => "held",
    };
    drop(answer);
    reported
}

/// The word for the answer to a put of 1 at a key, which should get this version.
fn put<R: Wait, G: Gate>(
    rt: &R,
    alloc: Global,
    cluster: &Cluster,
    client: &mut Client,
    gate: &G,
    byte: u8,
    of: Version,
) -> Result<&'static str, TypeFault> {
    let (key, value) = pair(alloc, byte)?;
    Ok(reported(cluster.put(rt, client, gate, key, value), of))
}

/// The word for the answer to a deletion of a key, which should get this version.
fn del<R: Wait>(
    rt: &R,
    alloc: Global,
    cluster: &Cluster,
    client: &mut Client,
    byte: u8,
    of: Version,
) -> Result<&'static str, TypeFault> {
    let key = key(alloc, byte)?;
    Ok(reported(cluster.del(rt, client, &OpenGate, key), of))
}

/// The word for the answer to a get of a key, which should find this version.
fn get<R: Wait>(
    rt: &R,
    alloc: Global,
    cluster: &Cluster,
    client: &mut Client,
    byte: u8,
    of: Version,
) -> Result<&'static str, TypeFault> {
    let key = key(alloc, byte)?;
    Ok(reported(cluster.get(rt, client, &OpenGate, key), of))
}

/// A client gets what it put, and finds nothing at another key.
fn gets_what_it_put<R: Wait + Abort>(
    rt: &R,
    alloc: Global,
    cluster: &Cluster,
    client: &mut Client,
) -> Result<(), TypeFault> {
    let of = Version::new(1, 0)?;
    assert!(*rt; put(rt, alloc, cluster, client, &OpenGate, b'x', of)? == "put");
    assert!(*rt; get(rt, alloc, cluster, client, b'x', of)? == "got");
    assert!(*rt; get(rt, alloc, cluster, client, b'y', of)? == "missed");
    assert!(*rt; client.share().entries().len() == 3);
    Ok(())
}

/// Like `gets_what_it_put`, for the only client of a new cluster, which has one more share and one node.
fn only_client_gets<R: Wait + Abort>(
    rt: &R,
    alloc: Global,
    opened: &mut Opened,
) -> Result<(), TypeFault> {
    assert!(*rt; opened.clients.len() == 1 && opened.shares.len() == 1);
    gets_what_it_put(rt, alloc, &opened.cluster, &mut opened.clients[0])?;
    assert!(*rt; opened.cluster.status(rt, 0, 0).is_some());
    assert!(*rt; opened.cluster.status(rt, 0, 1).is_none());
    Ok(())
}

#[test]
fn a_client_gets_what_it_put(rt: HostRuntime) -> Result<(), Fail> {
    let mut opened = opened(rt.alloc(), 1, false, &[0])?;
    let reported = only_client_gets(&rt, rt.alloc(), &mut opened);
    drop(opened);
    Ok(reported?)
}

/// A client gets a key that it deleted as gone, even one that it never put, and then puts again.
fn finds_what_it_deleted<R: Wait + Abort>(
    rt: &R,
    alloc: Global,
    cluster: &Cluster,
    client: &mut Client,
) -> Result<(), TypeFault> {
    let (first, second) = (Version::new(1, 0)?, Version::new(2, 0)?);
    let (third, fourth) = (Version::new(3, 0)?, Version::new(4, 0)?);
    assert!(*rt; put(rt, alloc, cluster, client, &OpenGate, b'x', first)? == "put");
    assert!(*rt; del(rt, alloc, cluster, client, b'x', second)? == "deleted");
    assert!(*rt; get(rt, alloc, cluster, client, b'x', second)? == "gone");
    assert!(*rt; del(rt, alloc, cluster, client, b'y', third)? == "deleted");
    assert!(*rt; get(rt, alloc, cluster, client, b'y', third)? == "gone");
    assert!(*rt; put(rt, alloc, cluster, client, &OpenGate, b'x', fourth)? == "put");
    assert!(*rt; get(rt, alloc, cluster, client, b'x', fourth)? == "got");
    assert!(*rt; client.share().entries().len() == 7);
    Ok(())
}

/// Where the cluster's format has no deletions, one is refused and makes no entry.
fn deletes_nothing<R: Wait + Abort>(
    rt: &R,
    alloc: Global,
    cluster: &Cluster,
    client: &mut Client,
) -> Result<(), TypeFault> {
    let of = Version::new(1, 0)?;
    assert!(*rt; put(rt, alloc, cluster, client, &OpenGate, b'x', of)? == "put");
    assert!(*rt; del(rt, alloc, cluster, client, b'x', of)? == "not in format");
    assert!(*rt; client.share().entries().len() == 1);
    assert!(*rt; get(rt, alloc, cluster, client, b'x', of)? == "got");
    Ok(())
}

/// `finds_what_it_deleted` for the only client of a cluster of format 2, and `deletes_nothing` for format 1.
fn only_client_deletes<R: Wait + Abort>(
    rt: &R,
    alloc: Global,
    format: Format,
    opened: &mut Opened,
) -> Result<(), TypeFault> {
    assert!(*rt; opened.clients.len() == 1);
    match format {
        Format::One => deletes_nothing(rt, alloc, &opened.cluster, &mut opened.clients[0]),
        Format::Two => finds_what_it_deleted(rt, alloc, &opened.cluster, &mut opened.clients[0]),
    }
}

#[test]
fn a_client_deletes_in_format_2(rt: HostRuntime) -> Result<(), Fail> {
    for format in [Format::One, Format::Two] {
        let mut opened = opened_in(format, rt.alloc(), 1, &[0])?;
        let reported = only_client_deletes(&rt, rt.alloc(), format, &mut opened);
        drop(opened);
        reported?;
    }
    Ok(())
}

/// Whether a put, a deletion and a get of a client of another cluster are refused as those of an unknown client.
fn of_another<R: Wait>(
    rt: &R,
    alloc: Global,
    here: &Opened,
    other: &mut Opened,
    number: usize,
) -> Result<bool, Fail> {
    let of = Version::new(1, 0)?;
    let client = other.clients.get_mut(number).ok_or("no such client")?;
    let put = put(rt, alloc, &here.cluster, client, &OpenGate, b'x', of)?;
    let del = del(rt, alloc, &here.cluster, client, b'x', of)?;
    let get = get(rt, alloc, &here.cluster, client, b'x', of)?;
    Ok(put == "no client" && del == "no client" && get == "no client")
}

/// Whether the client of this number of a cluster of this format is refused.
fn is_refused<R: Wait>(
    rt: &R,
    alloc: Global,
    here: &Opened,
    format: Format,
    number: usize,
) -> Result<bool, Fail> {
    let mut other = opened_in(format, alloc, 1, &[0, 0])?;
    let is_refused = of_another(rt, alloc, here, &mut other, number);
    drop(other);
    is_refused
}

#[test]
fn a_client_that_is_not_there_is_refused(rt: HostRuntime) -> Result<(), Fail> {
    for (format, number) in [(Format::One, 1), (Format::Two, 0), (Format::Two, 1)] {
        let here = opened(rt.alloc(), 1, false, &[0])?;
        let is_refused = is_refused(&rt, rt.alloc(), &here, format, number);
        drop(here);
        assert!(rt; is_refused?, "{number}");
    }
    Ok(())
}

/// Whether the answer says that a put was done. Drops the answer.
fn is_done(answer: Result<Outcome, GateHeld>) -> bool {
    let is_done = matches!(&answer, Ok(Outcome::PutDone(_)));
    drop(answer);
    is_done
}

/// Whether the client's put was done.
fn puts<R: Wait, G: Gate>(
    rt: &R,
    alloc: Global,
    cluster: &Cluster,
    client: &mut Client,
    gate: &G,
    byte: u8,
) -> bool {
    match pair(alloc, byte) {
        Ok((key, value)) => is_done(cluster.put(rt, client, gate, key, value)),
        Err(_) => false,
    }
}

/// Whether clients 1 and 2, each at another of two nodes, put in steps that run in parallel.
fn meet<R: Threads + Wait + Sync + Abort>(rt: &R, alloc: Global, opened: &mut Opened) -> bool {
    let Opened {
        cluster,
        clients,
        ..
    } = opened;
    let gate = Meeting::new(
        Point::InStep { node: 0, client: 1 },
        Point::InStep { node: 1, client: 2 },
    );
    assert!(*rt; clients.len() == 3);
    let (first, second) = clients.split_at_mut(2);
    let (one, two) = (&mut first[1], &mut second[0]);
    let (low, high) = thread::join(
        rt,
        || puts(rt, alloc, cluster, one, &gate, b'a'),
        || puts(rt, alloc, cluster, two, &gate, b'z'),
    );
    low && high
}

#[test]
fn two_puts_stand_in_their_steps_at_once(rt: HostRuntime) -> Result<(), Fail> {
    let mut opened = opened(rt.alloc(), 1, true, &[0, 0, 0])?;
    let met = meet(&rt, rt.alloc(), &mut opened);
    drop(opened);
    assert!(rt; met);
    Ok(())
}

/// Holds each step of client 0 under the node's lock.
const HOLDING: HoldsSteps = HoldsSteps { client: 0 };

/// A put of client 0 is held and makes no entry, and then a put of client 1 is done and makes one.
fn one_is_held<R: Wait + Abort>(rt: &R, alloc: Global, opened: &mut Opened) {
    let Opened {
        cluster,
        clients,
        ..
    } = opened;
    assert!(*rt; clients.len() == 2);
    assert!(*rt; !puts(rt, alloc, cluster, &mut clients[0], &HOLDING, b'x'));
    assert!(*rt; puts(rt, alloc, cluster, &mut clients[1], &HOLDING, b'x'));
    assert!(*rt; clients[0].share().entries().len() == 0);
    assert!(*rt; clients[1].share().entries().len() == 1);
}

#[test]
fn a_held_step_changes_nothing(rt: HostRuntime) -> Result<(), Fail> {
    let mut opened = opened(rt.alloc(), 1, false, &[0, 0])?;
    one_is_held(&rt, rt.alloc(), &mut opened);
    drop(opened);
    Ok(())
}

/// The dependency on x at 1.0 alone.
fn on_x(alloc: Global) -> Result<Vec<Dep>, TypeFault> {
    let version = Version::new(1, 0)?;
    let mut deps = Vec::with_capacity(alloc, 1)?;
    let key = key(alloc, b'x')?;
    deps.push(Dep { key, version })?;
    Ok(deps)
}

/// A put of 1 at a key and a version, which depends on x at 1.0 or on nothing.
fn put_of(
    alloc: Global,
    byte: u8,
    version: Version,
    is_on_x: bool,
) -> Result<PutRecord, TypeFault> {
    let deps = if is_on_x {
        on_x(alloc)?
    } else {
        Vec::new(alloc)
    };
    let deps = Deps::new(deps)?;
    let (key, value) = pair(alloc, byte)?;
    Ok(PutRecord {
        key,
        value: Some(value),
        version,
        deps,
    })
}

/// The word for the answer to a put of x at 1.0, or of y at another version that depends on it, when it is delivered to
/// data centre 1.
fn deliver<R: Wait>(
    rt: &R,
    alloc: Global,
    cluster: &Cluster,
    share: &mut Share,
    byte: u8,
    of: Version,
) -> Result<&'static str, TypeFault> {
    let put = put_of(alloc, byte, of, byte == b'y')?;
    Ok(reported(cluster.deliver(rt, share, &OpenGate, 1, put), of))
}

/// The word for the answer when the put of a version is settled in a data centre.
fn settle<R: Wait>(
    rt: &R,
    cluster: &Cluster,
    share: &mut Share,
    dc: u8,
    of: Version,
) -> &'static str {
    reported(cluster.settle(rt, share, &OpenGate, dc, of), of)
}

/// A word for the answer to a question. Drops the answer.
fn answered(asked: Result<Asked, GateHeld>) -> &'static str {
    let answered = match &asked {
        Ok(Asked::Yes(_)) => "yes",
        Ok(Asked::Other(_)) => "no yes",
        Err(GateHeld) => "held",
    };
    drop(asked);
    answered
}

/// The word for the answer when data centre 1 is asked whether exactly x at this version is settled there.
fn ask<R: Wait>(
    rt: &R,
    alloc: Global,
    cluster: &Cluster,
    share: &mut Share,
    of: Version,
) -> Result<&'static str, TypeFault> {
    let key = key(alloc, b'x')?;
    let asked = cluster.ask(rt, share, &OpenGate, 1, &key, of);
    drop(key);
    Ok(answered(asked))
}

/// The put of x is delivered to data centre 1 twice, and settled there.
fn comes_once<R: Wait + Abort>(
    rt: &R,
    alloc: Global,
    cluster: &Cluster,
    share: &mut Share,
) -> Result<(), TypeFault> {
    let of = Version::new(1, 0)?;
    assert!(*rt; deliver(rt, alloc, cluster, share, b'x', of)? == "waits");
    assert!(*rt; deliver(rt, alloc, cluster, share, b'x', of)? == "repeat");
    assert!(*rt; ask(rt, alloc, cluster, share, of)? == "no yes");
    assert!(*rt; settle(rt, cluster, share, 1, of) == "settled");
    assert!(*rt; ask(rt, alloc, cluster, share, of)? == "yes");
    assert!(*rt; settle(rt, cluster, share, 2, of) == "no data centre");
    Ok(())
}

/// Client 0 of data centre 0 puts x, which client 1 does not find in data centre 1, to which it is then delivered: five
/// entries are made there.
fn comes_over<R: Wait + Abort>(
    rt: &R,
    alloc: Global,
    opened: &mut Opened,
) -> Result<(), TypeFault> {
    let of = Version::new(1, 0)?;
    let Opened {
        cluster,
        clients,
        shares,
    } = opened;
    assert!(*rt; clients.len() == 2 && shares.len() == 2);
    assert!(*rt; puts(rt, alloc, cluster, &mut clients[0], &OpenGate, b'x'));
    assert!(*rt; get(rt, alloc, cluster, &mut clients[1], b'x', of)? == "missed");
    comes_once(rt, alloc, cluster, &mut shares[1])?;
    assert!(*rt; shares[1].entries().len() == 5);
    Ok(())
}

#[test]
fn a_put_comes_into_another_data_centre(rt: HostRuntime) -> Result<(), Fail> {
    let mut opened = opened(rt.alloc(), 2, false, &[0, 1])?;
    let reported = comes_over(&rt, rt.alloc(), &mut opened);
    drop(opened);
    Ok(reported?)
}

/// A deletion of x at this version, which depends on nothing.
fn deletion_of_x(alloc: Global, version: Version) -> Result<PutRecord, TypeFault> {
    let deps = Deps::new(Vec::new(alloc))?;
    let key = key(alloc, b'x')?;
    Ok(PutRecord {
        key,
        value: None,
        version,
        deps,
    })
}

/// A deletion is delivered to data centre 1, where client 0 then finds it.
fn deletion_comes_over<R: Wait + Abort>(
    rt: &R,
    alloc: Global,
    opened: &mut Opened,
) -> Result<(), TypeFault> {
    let of = Version::new(1, 0)?;
    let Opened {
        cluster,
        clients,
        shares,
    } = opened;
    assert!(*rt; clients.len() == 1 && shares.len() == 2);
    let deletion = deletion_of_x(alloc, of)?;
    let share = &mut shares[1];
    assert!(*rt; reported(cluster.deliver(rt, share, &OpenGate, 1, deletion), of) == "waits");
    assert!(*rt; get(rt, alloc, cluster, &mut clients[0], b'x', of)? == "missed");
    assert!(*rt; settle(rt, cluster, share, 1, of) == "settled");
    assert!(*rt; get(rt, alloc, cluster, &mut clients[0], b'x', of)? == "gone");
    assert!(*rt; ask(rt, alloc, cluster, share, of)? == "yes");
    Ok(())
}

#[test]
fn a_deletion_comes_into_another_data_centre(rt: HostRuntime) -> Result<(), Fail> {
    let mut opened = opened_in(Format::Two, rt.alloc(), 2, &[1])?;
    let reported = deletion_comes_over(&rt, rt.alloc(), &mut opened);
    drop(opened);
    Ok(reported?)
}

fn yes_of(asked: Result<Asked, GateHeld>) -> Result<Yes, Fail> {
    match asked {
        Ok(Asked::Yes(yes)) => Ok(yes),
        other => {
            drop(other);
            Err(Fail::new("it is not settled"))
        }
    }
}

/// A put without dependencies is delivered to a data centre and settled, and the node then answers that it is settled.
fn settled<R: Wait>(
    rt: &R,
    alloc: Global,
    cluster: &Cluster,
    share: &mut Share,
    dc: u8,
    byte: u8,
    of: Version,
) -> Result<Yes, Fail> {
    let put = put_of(alloc, byte, of, false)?;
    drop(cluster.deliver(rt, share, &OpenGate, dc, put)?);
    drop(cluster.settle(rt, share, &OpenGate, dc, of)?);
    let key = key(alloc, byte)?;
    let asked = cluster.ask(rt, share, &OpenGate, dc, &key, of);
    drop(key);
    yes_of(asked)
}

/// The word for the outcome when `yes` is used to mark the one dependency of y in data centre 1.
fn mark_y<R: Wait>(
    rt: &R,
    cluster: &Cluster,
    share: &mut Share,
    y: Version,
    yes: &Yes,
) -> &'static str {
    reported(cluster.mark(rt, share, &OpenGate, 1, y, 0, yes), y)
}

/// Whether the answer is refused since it is not for the one dependency of y, and the share gains nothing.
fn is_no_yes<R: Wait>(rt: &R, cluster: &Cluster, share: &mut Share, y: Version, yes: &Yes) -> bool {
    let entries = share.entries().len();
    mark_y(rt, cluster, share, y, yes) == "no yes" && share.entries().len() == entries
}

/// Whether the Yes for z at 3.0 marks nothing for y.
fn is_no_yes_of_z<R: Wait>(
    rt: &R,
    alloc: Global,
    cluster: &Cluster,
    share: &mut Share,
    y: Version,
) -> Result<bool, Fail> {
    let yes = settled(rt, alloc, cluster, share, 1, b'z', Version::new(3, 0)?)?;
    let is_no_yes = is_no_yes(rt, cluster, share, y, &yes);
    drop(yes);
    Ok(is_no_yes)
}

/// The word for the outcome when the Yes for x at 1.0 is used to mark the one dependency of y.
fn mark_y_by_x<R: Wait>(
    rt: &R,
    alloc: Global,
    cluster: &Cluster,
    share: &mut Share,
    y: Version,
) -> Result<&'static str, Fail> {
    let yes = settled(rt, alloc, cluster, share, 1, b'x', Version::new(1, 0)?)?;
    let reported = mark_y(rt, cluster, share, y, &yes);
    drop(yes);
    Ok(reported)
}

/// A node at which y at 2.0 waits for x at 1.0.
fn node_of_y(alloc: Global, y: Version) -> Result<Node, TypeFault> {
    let put = put_of(alloc, b'y', y, true)?;
    let mut node = Node::open(alloc, 64);
    drop(node.deliver(put));
    Ok(node)
}

/// Whether the Yes for x at 1.0 in data centre 0 allows marking the dependency of y there, the dependency of y in data
/// centre 1, and an index that is no dependency of y.
fn allowed(alloc: Global, elsewhere: &Yes, y: Version) -> Result<[bool; 3], TypeFault> {
    let node = node_of_y(alloc, y)?;
    let allowed = [
        elsewhere.allows(0, &node, y, 0),
        elsewhere.allows(1, &node, y, 0),
        elsewhere.allows(1, &node, y, 1),
    ];
    drop(node);
    Ok(allowed)
}

/// A put of y waits for x: the Yes for z marks nothing, nor does the Yes for x of another data centre, but the Yes for
/// x does.
fn waits_for_x<R: Wait + Abort>(
    rt: &R,
    alloc: Global,
    cluster: &Cluster,
    share: &mut Share,
    elsewhere: &Yes,
) -> Result<(), Fail> {
    let y = Version::new(2, 0)?;
    assert!(*rt; allowed(alloc, elsewhere, y)? == [true, false, true]);
    assert!(*rt; deliver(rt, alloc, cluster, share, b'y', y)? == "waits");
    assert!(*rt; is_no_yes_of_z(rt, alloc, cluster, share, y)?);
    assert!(*rt; is_no_yes(rt, cluster, share, y, elsewhere));
    assert!(*rt; mark_y_by_x(rt, alloc, cluster, share, y)? == "marked");
    assert!(*rt; settle(rt, cluster, share, 1, y) == "settled");
    Ok(())
}

/// Like `waits_for_x`, in a new cluster of two data centres.
fn waits_in<R: Wait + Abort>(rt: &R, alloc: Global, opened: &mut Opened) -> Result<(), Fail> {
    let Opened {
        cluster,
        shares,
        ..
    } = opened;
    assert!(*rt; shares.len() == 2);
    let x = Version::new(1, 0)?;
    let elsewhere = settled(rt, alloc, cluster, &mut shares[0], 0, b'x', x)?;
    let waited = waits_for_x(rt, alloc, cluster, &mut shares[1], &elsewhere);
    drop(elsewhere);
    waited
}

#[test]
fn a_yes_of_another_pair_or_data_centre_marks_nothing(rt: HostRuntime) -> Result<(), Fail> {
    let mut opened = opened(rt.alloc(), 2, false, &[])?;
    let waited = waits_in(&rt, rt.alloc(), &mut opened);
    drop(opened);
    waited
}

/// The shares of the clients, and then of the receivers.
fn all_shares(
    alloc: Global,
    clients: Vec<Client>,
    receivers: Vec<Share>,
) -> Result<Vec<Share>, Fail> {
    let mut shares = Vec::new(alloc);
    for client in clients {
        shares.push(client.into_share())?;
    }
    for share in receivers {
        shares.push(share)?;
    }
    Ok(shares)
}

/// Client 0 is held, and client 1 puts at each of these keys.
fn put_all<R: Wait>(rt: &R, alloc: Global, opened: &mut Opened, keys: &[u8]) {
    let Opened {
        cluster,
        clients,
        ..
    } = opened;
    if let Some(client) = clients.get_mut(0) {
        let _held = puts(rt, alloc, cluster, client, &HOLDING, b'x');
    }
    if let Some(client) = clients.get_mut(1) {
        for byte in keys {
            let _done = puts(rt, alloc, cluster, client, &HOLDING, *byte);
        }
    }
}

/// A cluster with one node that is not closed yet, with its shares: client 0 was held, and client 1 put at each of
/// these keys.
fn before_the_end<R: Wait>(
    rt: &R,
    alloc: Global,
    keys: &[u8],
) -> Result<(Cluster, Vec<Share>), Fail> {
    let mut opened = opened(alloc, 1, false, &[0, 0])?;
    put_all(rt, alloc, &mut opened, keys);
    let Opened {
        cluster,
        clients,
        shares,
    } = opened;
    match all_shares(alloc, clients, shares) {
        Ok(shares) => Ok((cluster, shares)),
        Err(fault) => {
            drop(cluster);
            Err(fault)
        }
    }
}

/// Such a cluster with the shares of another one, in which client 1 put at other keys.
fn with_shares_of<R: Wait>(
    rt: &R,
    alloc: Global,
    keys: &[u8],
    others: &[u8],
) -> Result<(Cluster, Vec<Share>), Fail> {
    let (cluster, own) = before_the_end(rt, alloc, keys)?;
    drop(own);
    match before_the_end(rt, alloc, others) {
        Ok((other, shares)) => {
            drop(other);
            Ok((cluster, shares))
        }
        Err(fault) => {
            drop(cluster);
            Err(fault)
        }
    }
}

/// Such a cluster without one of its shares.
fn without_a_share<R: Wait>(rt: &R, alloc: Global) -> Result<(Cluster, Vec<Share>), Fail> {
    let (cluster, mut shares) = before_the_end(rt, alloc, b"xy")?;
    let lost = shares.pop();
    drop(lost);
    Ok((cluster, shares))
}

/// Whether the cluster was closed, its one node has two entries, and the trace has two operations. Drops what is left.
fn has_two(ended: Result<Closed, CloseFault>) -> bool {
    let has_two = match &ended {
        Ok(Closed { books, trace }) => {
            books.len() == 1 && books[0].len() == 2 && trace.len() == 2
        }
        Err(_) => false,
    };
    drop(ended);
    has_two
}

#[test]
fn a_cluster_ends_with_its_entries(rt: HostRuntime) -> Result<(), Fail> {
    let (cluster, shares) = before_the_end(&rt, rt.alloc(), b"xy")?;
    assert!(rt; has_two(cluster.close(shares)));
    Ok(())
}

/// The ticket at which the books differ from the shares, or none.
fn ticket_of(ended: Result<Closed, CloseFault>) -> Option<u64> {
    let ticket = match &ended {
        Err(CloseFault::NotKept { ticket }) => Some(*ticket),
        _ => None,
    };
    drop(ended);
    ticket
}

#[test]
fn shares_without_or_with_other_entries_are_not_kept(rt: HostRuntime) -> Result<(), Fail> {
    for (keys, others, ticket) in [
        (b"xy".as_slice(), b"x".as_slice(), 1),
        (b"x".as_slice(), b"xyz".as_slice(), 1),
        (b"vwxyz".as_slice(), b"vwaxy".as_slice(), 2),
        (b"".as_slice(), b"x".as_slice(), 0),
    ] {
        let (cluster, shares) = with_shares_of(&rt, rt.alloc(), keys, others)?;
        assert!(rt;
            ticket_of(cluster.close(shares)) == Some(ticket),
            "{ticket}"
        );
    }
    Ok(())
}

fn is_missing<T>(ended: &Result<T, CloseFault>) -> bool {
    matches!(ended, Err(CloseFault::SharesMissing(_, _)))
}

#[test]
fn a_cluster_without_all_shares_comes_back(rt: HostRuntime) -> Result<(), Fail> {
    let (cluster, shares) = without_a_share(&rt, rt.alloc())?;
    let ended = cluster.close(shares);
    let is_missing = is_missing(&ended);
    drop(ended);
    assert!(rt; is_missing);
    Ok(())
}

/// The difference of a closed cluster's entries, which are one list, from its shares, which closing did not compare.
fn difference(alloc: Global, ended: &Result<Uncompared, CloseFault>) -> Result<Option<u64>, Fail> {
    match ended {
        Ok(Uncompared { closed, shares }) if closed.books.len() == 1 => {
            Ok(difference_of_lists(alloc, 1, &closed.books, shares)?)
        }
        _ => Err(Fail::new("there is not one list of entries")),
    }
}

#[test]
fn entries_are_compared_with_shares_after_the_end(rt: HostRuntime) -> Result<(), Fail> {
    for (others, wanted) in [(b"xy".as_slice(), None), (b"x".as_slice(), Some(1))] {
        let (cluster, shares) = with_shares_of(&rt, rt.alloc(), b"xy", others)?;
        let ended = cluster.close_uncompared(shares);
        let difference = difference(rt.alloc(), &ended);
        drop(ended);
        assert!(rt; difference? == wanted);
    }
    Ok(())
}

#[test]
fn a_cluster_without_all_shares_comes_back_uncompared(rt: HostRuntime) -> Result<(), Fail> {
    let (cluster, shares) = without_a_share(&rt, rt.alloc())?;
    let ended = cluster.close_uncompared(shares);
    let is_missing = is_missing(&ended);
    drop(ended);
    assert!(rt; is_missing);
    Ok(())
}
