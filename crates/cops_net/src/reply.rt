//! A session's answers, and its calls with their answers.
use cops_types::{Key, NodeStatus, Refusal, Value, Version};
use std::alloc::AllocError;

/// A session's answer to a put, a deletion, a get, or the question whether a put is settled.
#[derive(Debug, Drop)]
pub enum Reply {
    /// The put has this version.
    PutDone(Version),
    /// The deletion has this version.
    Deleted(Version),
    /// The get found this value with this version.
    Got(Value, Version),
    /// The get found a deletion with this version.
    Gone(Version),
    /// The get found nothing.
    Missed,
    /// The put is settled.
    Yes,
    /// The put is not settled yet.
    Wait,
    /// The call was refused for this reason.
    Refused(Refusal),
}

/// A clone is equal to its original.
impl Clone for Reply {
    ghost use Rattle.std.specs.Prelude.{◌≡◌};

    ghost is_clone = { λ s t. t ≡ s };

    fn clone(&self) -> Result<Reply, AllocError> {
        Ok(match self {
            Reply::PutDone(version) => Reply::PutDone(*version),
            Reply::Deleted(version) => Reply::Deleted(*version),
            Reply::Got(value, version) => Reply::Got(value.clone()?, *version),
            Reply::Gone(version) => Reply::Gone(*version),
            Reply::Missed => Reply::Missed,
            Reply::Yes => Reply::Yes,
            Reply::Wait => Reply::Wait,
            Reply::Refused(refusal) => Reply::Refused(*refusal),
        })
    }
}

/// A call of a session with its answer.
#[derive(Debug, Drop)]
pub enum Call {
    /// A greeting: the client's data centre and its number of nodes, or a refusal.
    Hello {
        client: u16,
        answer: Result<(u8, u8), Refusal>,
    },
    /// A put.
    Put {
        key: Key,
        value: Value,
        answer: Reply,
    },
    /// A deletion.
    Del {
        key: Key,
        answer: Reply,
    },
    /// A get.
    Get {
        key: Key,
        answer: Reply,
    },
    /// A question whether this put is settled.
    DepCheck {
        key: Key,
        version: Version,
        answer: Reply,
    },
    /// A question for the status of the node at this place: `None` where there is no such node.
    Status {
        place: u8,
        answer: Option<NodeStatus>,
    },
}
