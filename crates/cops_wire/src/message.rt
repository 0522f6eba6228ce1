use cops_types::{Deps, Key, Value, Version};

/// The messages that are sent, and those of which a trace consists. `seq` is a number that the requester gives to a
/// request, and that the answer repeats. Each field may have any value of its type, except where a range is given;
/// `legal` tests those ranges.
#[derive(Debug, Drop)]
pub enum Message {
    /// A client's greeting, with the number of the format that it speaks and its own number.
    Hello {
        profile: u16,
        client: u16,
    },
    /// The answer to a greeting: the client's data centre, below 16, and the number of its nodes, 1 to 64.
    HelloOk {
        dc: u8,
        nodes: u8,
    },
    /// A client's put.
    Put {
        seq: u32,
        key: Key,
        value: Value,
    },
    /// A client's get.
    Get {
        seq: u32,
        key: Key,
    },
    /// The answer to a put: its version.
    PutDone {
        seq: u32,
        version: Version,
    },
    /// The value that a get found, and its version.
    Got {
        seq: u32,
        value: Value,
        version: Version,
    },
    /// A get that found nothing.
    Missed {
        seq: u32,
    },
    /// A request that was refused, with the refusal's code, not 0.
    Refused {
        seq: u32,
        code: u8,
    },
    /// A put on its way to another data centre, with the dependencies that must be there first.
    PutAfter {
        key: Key,
        value: Value,
        version: Version,
        deps: Deps,
    },
    /// Asks whether a put is there.
    DepCheck {
        seq: u32,
        key: Key,
        version: Version,
    },
    /// The put is there.
    DepYes {
        seq: u32,
    },
    /// The put is not there yet.
    DepWait {
        seq: u32,
    },
    /// Asks for the status of a node, by its number in the data centre, below 64.
    Status {
        seq: u32,
        node: u8,
    },
    /// The status of a node: its clock, at most 281,474,976,710,655, and the numbers of its keys, settled puts and held
    /// puts.
    StatusIs {
        seq: u32,
        clock: u64,
        keys: u32,
        settled: u32,
        held: u32,
    },
    /// A client ends its session.
    Bye,
    /// The session has ended.
    ByeOk,
    /// The head of a trace: its format, and the number of its clients.
    TraceHead {
        format: u16,
        clients: u16,
    },
    /// A record of a trace: a put, and its version. The index is the operation's place in the client's session.
    TracePut {
        client: u16,
        index: u32,
        key: Key,
        value: Value,
        version: Version,
    },
    /// A record of a trace: a get that found a value.
    TraceGot {
        client: u16,
        index: u32,
        key: Key,
        value: Value,
        version: Version,
    },
    /// A record of a trace: a get that found nothing.
    TraceMissed {
        client: u16,
        index: u32,
        key: Key,
    },
    /// The end of a trace: the number of its records.
    TraceEnd {
        ops: u32,
    },
    /// A client's deletion. This kind and those after it are of format 2.
    Del {
        seq: u32,
        key: Key,
    },
    /// The answer to a deletion: its version.
    Deleted {
        seq: u32,
        version: Version,
    },
    /// A get that found a deletion, and its version.
    Gone {
        seq: u32,
        version: Version,
    },
    /// A deletion on its way to another data centre, with the dependencies that must be there first.
    DelAfter {
        key: Key,
        version: Version,
        deps: Deps,
    },
    /// A record of a trace: a deletion, and its version.
    TraceDel {
        client: u16,
        index: u32,
        key: Key,
        version: Version,
    },
    /// A record of a trace: a get that found a deletion.
    TraceGone {
        client: u16,
        index: u32,
        key: Key,
        version: Version,
    },
}
