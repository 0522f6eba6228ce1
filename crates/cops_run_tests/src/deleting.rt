//! Server sessions with deletions, and in format 1, which has none.
use cops_net::{Call, NetFault, Reply, Served, Session, serve_session};
use cops_scenario::Scenario;
use cops_serve::{Finished, FrontEnd, ServeFault};
use cops_types::Counted;
use cops_wire::WireFault;
use std::alloc::Global;
use std::sync::Wait;
use std::test::Fail;

/// One data centre with one node and one client, in format 1.
const ONE: &[u8] = b"{\"data_centres\":1,\"clients\":[{\"at\":0}]}";

/// One data centre with one node and one client, in format 2.
const TWO: &[u8] = b"{\"format\":2,\"data_centres\":1,\"clients\":[{\"at\":0}]}";

/// A greeting of client 0 in format 1, and its deletion of x.
const MESSAGES_OF_ONE: [u8; 20] = [
    0, 0, 0, 5, 1, 0, 1, 0, 0, //
    0, 0, 0, 7, 22, 0, 0, 0, 2, 1, 120,
];

/// Client 0's greeting in format 2, its put of 1 at x, its deletion of x, and its get of x.
const MESSAGES_OF_TWO: [u8; 45] = [
    0, 0, 0, 5, 1, 0, 2, 0, 0, //
    0, 0, 0, 10, 3, 0, 0, 0, 1, 1, 120, 0, 1, 49, //
    0, 0, 0, 7, 22, 0, 0, 0, 2, 1, 120, //
    0, 0, 0, 7, 4, 0, 0, 0, 3, 1, 120,
];

/// Where the greeting ends, after which comes a deletion of x in format 1.
const GREETED: usize = 9;

/// The replies: data centre 0 has 1 node, the put was done with the version 1.0, the deletion with 2.0, and the get
/// found the deletion.
const REPLIES: [u8; 58] = [
    0, 0, 0, 3, 2, 0, 1, //
    0, 0, 0, 13, 5, 0, 0, 0, 1, 0, 0, 0, 0, 0, 1, 0, 0, //
    0, 0, 0, 13, 23, 0, 0, 0, 2, 0, 0, 0, 0, 0, 2, 0, 0, //
    0, 0, 0, 13, 24, 0, 0, 0, 3, 0, 0, 0, 0, 0, 2, 0, 0,
];

/// Where the reply to a greeting ends.
const WELCOMED: usize = 7;

/// The reply to a greeting with the number of another format: refused with 17.
const BAD_PROFILE: [u8; 10] = [0, 0, 0, 6, 8, 0, 0, 0, 0, 17];

fn front_end(alloc: Global, scenario: &[u8]) -> Result<FrontEnd, Fail> {
    let scenario = Scenario::from_json(alloc, scenario)?;
    let opened = FrontEnd::open(alloc, &scenario);
    drop(scenario);
    Ok(opened?)
}

/// How a session with these messages ends in a scenario's cluster, and whether exactly these replies were written.
fn served<R: Wait>(
    rt: &R,
    alloc: Global,
    scenario: &[u8],
    messages: &[u8],
    replies: &[u8],
) -> Result<(Result<Served, NetFault>, bool), Fail> {
    let mut front_end = front_end(alloc, scenario)?;
    let mut reader = Counted::new(messages);
    let mut writer = Counted::new(Vec::new(alloc));
    let ended = serve_session(rt, alloc, &mut reader, &mut writer, &mut front_end);
    drop(front_end);
    let are_replies = writer.into_inner().as_slice() == replies;
    Ok((ended, are_replies))
}

#[test]
fn a_client_deletes(rt: HostRuntime) -> Result<(), Fail> {
    let served = served(&rt, rt.alloc(), TWO, &MESSAGES_OF_TWO, &REPLIES)?;
    assert!(rt; served == (Ok(Served { answered: 4 }), true));
    Ok(())
}

#[test]
fn a_greeting_names_the_format(rt: HostRuntime) -> Result<(), Fail> {
    let of_one = &MESSAGES_OF_ONE[..GREETED];
    let of_two = &MESSAGES_OF_TWO[..GREETED];
    for (scenario, greeting, replies) in [
        (ONE, of_one, &REPLIES[..WELCOMED]),
        (TWO, of_two, &REPLIES[..WELCOMED]),
        (ONE, of_two, BAD_PROFILE.as_slice()),
        (TWO, of_one, BAD_PROFILE.as_slice()),
    ] {
        let served = served(&rt, rt.alloc(), scenario, greeting, replies)?;
        assert!(rt; served == (Ok(Served { answered: 1 }), true));
    }
    Ok(())
}

/// Before a greeting was answered, and in format 1, a deletion is not a message.
#[test]
fn a_deletion_is_unknown(rt: HostRuntime) -> Result<(), Fail> {
    for (scenario, messages, replies) in [
        (TWO, &MESSAGES_OF_ONE[GREETED..], b"".as_slice()),
        (ONE, &MESSAGES_OF_ONE[GREETED..], b"".as_slice()),
        (ONE, MESSAGES_OF_ONE.as_slice(), &REPLIES[..WELCOMED]),
    ] {
        let served = served(&rt, rt.alloc(), scenario, messages, replies)?;
        assert!(rt; served == (Err(NetFault::Wire(WireFault::UnknownKind)), true));
    }
    Ok(())
}

/// The place of a call in such a session, by its answer: a greeting, a put that was done, a deletion that was done, and
/// a get that found a deletion. For any other answer it is 4.
fn place_of(call: &Call) -> usize {
    match call {
        Call::Put { answer, .. } | Call::Del { answer, .. } | Call::Get { answer, .. } => {
            match answer {
                Reply::PutDone(_) => 1,
                Reply::Deleted(_) => 2,
                Reply::Gone(_) => 3,
                _ => 4,
            }
        }
        _ => 0,
    }
}

/// Whether these are the calls of such a session, in order.
fn are_listed(calls: &[Call]) -> bool {
    for k in 0..calls.len() {
        if place_of(&calls[k]) != k {
            return false;
        }
    }
    calls.len() == 4
}

/// Whether the report is of an accepted history of three operations, of which the deletion counts as a put.
fn is_accepted(ended: Result<Finished, ServeFault>) -> bool {
    let wanted = b"accepted: 3 operations, 2 puts\n";
    let is_accepted =
        matches!(&ended, Ok(finished) if finished.report.as_slice() == wanted.as_slice());
    drop(ended);
    is_accepted
}

/// Whether the calls of such a session are listed, and the report at the end is accepted.
fn ends<R: Wait>(rt: &R, alloc: Global, scenario: &Scenario) -> Result<(bool, bool), Fail> {
    let mut front_end = FrontEnd::open(alloc, scenario)?;
    let mut reader = Counted::new(MESSAGES_OF_TWO.as_slice());
    let mut writer = Counted::new(Vec::new(alloc));
    let ended = serve_session(rt, alloc, &mut reader, &mut writer, &mut front_end);
    drop(writer);
    let are_listed = ended.is_ok() && are_listed(front_end.calls());
    Ok((are_listed, is_accepted(front_end.finish(scenario))))
}

#[test]
fn deletions_are_listed_and_tied(rt: HostRuntime) -> Result<(), Fail> {
    let scenario = Scenario::from_json(rt.alloc(), TWO)?;
    let ends = ends(&rt, rt.alloc(), &scenario);
    drop(scenario);
    assert!(rt; ends? == (true, true));
    Ok(())
}
