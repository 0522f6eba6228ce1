//! A scenario's cluster behind the front door.
use cops_net::{Call, NetFault, Reply, Served, Session, serve_session};
use cops_scenario::Scenario;
use cops_serve::{Finished, FrontEnd, ServeFault};
use cops_types::{Counted, FailingReader, FailingWriter};
use cops_wire::WireFault;
use std::alloc::Global;
use std::sync::Wait;
use std::test::Fail;

/// One data centre with one node and one client.
const ONE: &[u8] = b"{\"data_centres\":1,\"clients\":[{\"at\":0}]}";

/// Two data centres, each with a client.
const TWO: &[u8] = b"{\"data_centres\":2,\"clients\":[{\"at\":0},{\"at\":1}]}";

/// A greeting of client 0, its put of 1 at x, and its goodbye.
const MESSAGES: [u8; 28] = [
    0, 0, 0, 5, 1, 0, 1, 0, 0, //
    0, 0, 0, 10, 3, 0, 0, 0, 1, 1, 120, 0, 1, 49, //
    0, 0, 0, 1, 15,
];

/// The replies: data centre 0 has 1 node, the put was done with the version 1.0, and goodbye.
const REPLIES: [u8; 29] = [
    0, 0, 0, 3, 2, 0, 1, //
    0, 0, 0, 13, 5, 0, 0, 0, 1, 0, 0, 0, 0, 0, 1, 0, 0, //
    0, 0, 0, 1, 16,
];

/// Where the messages and their replies end.
const ENDS: [(usize, usize); 3] = [(9, 7), (23, 24), (28, 29)];

fn front_end(alloc: Global) -> Result<FrontEnd, Fail> {
    let scenario = Scenario::from_json(alloc, ONE)?;
    let opened = FrontEnd::open(alloc, &scenario);
    drop(scenario);
    Ok(opened?)
}

/// How the session ends where only the first `reads` reads and the first `writes` bytes of writes succeed, and how much
/// was written.
fn served<R: Wait>(
    rt: &R,
    alloc: Global,
    reads: u64,
    writes: u64,
) -> Result<(Result<Served, NetFault>, usize), Fail> {
    let mut front_end = front_end(alloc)?;
    let reader = FailingReader::new(MESSAGES.as_slice(), reads, 1000, 5);
    let writer = FailingWriter::new(Vec::new(alloc), 1000, writes, 3);
    let (mut reader, mut writer) = (Counted::new(reader), Counted::new(writer));
    let ended = serve_session(rt, alloc, &mut reader, &mut writer, &mut front_end);
    drop(front_end);
    let written = writer.into_inner().into_inner();
    Ok((ended, written.len()))
}

#[test]
fn a_device_fails(rt: HostRuntime) -> Result<(), Fail> {
    for (reads, writes, ended, written) in [
        (100, 100, Ok(Served { answered: 3 }), 29),
        (0, 100, Err(NetFault::ReadFailed), 0),
        (3, 100, Err(NetFault::ReadFailed), 7),
        (100, 0, Err(NetFault::WriteFailed), 0),
        (100, 6, Err(NetFault::WriteFailed), 6),
        (100, 25, Err(NetFault::WriteFailed), 25),
    ] {
        assert!(rt;
            served(&rt, rt.alloc(), reads, writes)? == (ended, written),
            "{reads} {writes}"
        );
    }
    Ok(())
}

/// Whether these calls are the greeting of client 0 and a put that is done.
fn are_listed(calls: &[Call]) -> bool {
    matches!(
        calls,
        [
            Call::Hello {
                client: 0,
                answer: Ok((0, 1))
            },
            Call::Put {
                answer: Reply::PutDone(_),
                ..
            },
        ]
    )
}

/// The greeting and the put are handed to the session, the goodbye is not.
#[test]
fn calls_are_listed(rt: HostRuntime) -> Result<(), Fail> {
    let mut front_end = front_end(rt.alloc())?;
    let before = front_end.calls().len();
    let mut reader = Counted::new(MESSAGES.as_slice());
    let mut writer = Counted::new(Vec::new(rt.alloc()));
    let ended = serve_session(&rt, rt.alloc(), &mut reader, &mut writer, &mut front_end);
    let are_listed = are_listed(front_end.calls());
    drop(front_end);
    drop(writer);
    assert!(rt; before == 0);
    assert!(rt; ended == Ok(Served { answered: 3 }));
    assert!(rt; are_listed);
    Ok(())
}

/// How a session with the first `len` bytes of the messages ends, and how many bytes were replied, if those are a
/// prefix of the replies.
fn cut<R: Wait>(
    rt: &R,
    alloc: Global,
    len: usize,
) -> Result<(Result<Served, NetFault>, Option<usize>), Fail> {
    let mut front_end = front_end(alloc)?;
    let mut reader = Counted::new(&MESSAGES[..len.min(MESSAGES.len())]);
    let mut writer = Counted::new(Vec::new(alloc));
    let ended = serve_session(rt, alloc, &mut reader, &mut writer, &mut front_end);
    drop(front_end);
    let replied = writer.into_inner();
    let written = replied.len();
    let are_first = REPLIES.starts_with(&replied);
    drop(replied);
    Ok((ended, are_first.then_some(written)))
}

/// The number of messages that end within `len` bytes, and the length of their replies.
fn whole(len: usize) -> (u32, usize) {
    let mut whole = (0u32, 0);
    for (end, replied) in ENDS {
        if end <= len {
            whole = (whole.0.saturating_add(1), replied);
        }
    }
    whole
}

/// A session may end between two messages. Inside a message it is an error.
#[test]
fn messages_are_cut_at_each_byte(rt: HostRuntime) -> Result<(), Fail> {
    for len in 0..=MESSAGES.len() {
        let (answered, replied) = whole(len);
        let is_between = len == 0 || ENDS.iter().any(|ends| ends.0 == len);
        let wanted = if is_between {
            Ok(Served { answered })
        } else {
            Err(NetFault::Wire(WireFault::Short))
        };
        assert!(rt;
            cut(&rt, rt.alloc(), len)? == (wanted, Some(replied)),
            "{len}"
        );
    }
    Ok(())
}

/// Whether there is no report because not even the first ticket belongs to the scenario. Drops a report.
fn is_untied(ended: Result<Finished, ServeFault>) -> bool {
    let is_untied = matches!(&ended, Err(ServeFault::Untied { ticket: 0 }));
    drop(ended);
    is_untied
}

#[test]
fn another_scenario_ends_no_front_end(rt: HostRuntime) -> Result<(), Fail> {
    let front_end = front_end(rt.alloc())?;
    let other = match Scenario::from_json(rt.alloc(), TWO) {
        Ok(other) => other,
        Err(fault) => {
            drop(front_end);
            return Err(Fail::from(fault));
        }
    };
    let is_untied = is_untied(front_end.finish(&other));
    drop(other);
    assert!(rt; is_untied);
    Ok(())
}
