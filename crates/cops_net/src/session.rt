//! The trait of what answers a client.
use crate::reply::{Call, Reply};
use cops_types::{Format, Key, Memory, NodeStatus, Refusal, Value, Version};
use std::sync::Wait;

/// A handler that answers a client's messages, in a format that no call changes. It keeps the list of its calls with
/// their answers. `room` is called before each of the six calls that answer, so that no answer is lost when memory runs
/// out.
///
/// An implementation that promises more of its calls gives, for each, the relation between the session before it, what
/// was asked and answered, and the session after it; by default nothing more is promised.
pub trait Session {
    ghost use Rattle.std.specs.Prelude.{◌≡◌, ◌<◌, ◌+◌, ◌-◌, ◌^◌, ◌++◌, ◌∷◌, [], ℕ, List, Option, Result, OnOk, ⊤};
    ghost use Rattle.cops_types.specs.declared.format.Format.{Format as AFormat};
    ghost use Rattle.cops_types.specs.declared.put_record.NodeStatus.{NodeStatus as Standing};
    ghost use Rattle.cops_types.specs.declared.refusal.Refusal.{Refusal as Refused};
    ghost use Rattle.cops_net.specs.declared.reply.Reply.{Reply as Answer};
    ghost use Rattle.cops_net.specs.declared.reply.Call.{Call};
    ghost use Rattle.cops_net.specs.Answers.{IsWelcome, IsPutReply, IsDelReply, IsGetReply, IsCheckReply, IsStanding};

    /// The calls so far, each with its answer.
    ghost calls: { Self → List Call };

    /// The session's format.
    ghost format: { Self → AFormat };

    /// The number of sessions that have ended.
    ghost ended: { Self → ℕ };

    /// There is room for one more call.
    ghost has_room: { Self → Type 0 };

    /// What making room changes.
    ghost rooms: { Self → Self → Type 0 } = { λ _ _. ⊤ };

    /// What a greeting by a client's number changes.
    ghost hellos: { Self → ℕ → Result (ℕ × ℕ) Refused → Self → Type 0 } = { λ _ _ _ _. ⊤ };

    /// What a put of a value on a key changes.
    ghost puts: { Self → List ℕ → List ℕ → Answer → Self → Type 0 } = { λ _ _ _ _ _. ⊤ };

    /// What a deletion of a key changes.
    ghost dels: { Self → List ℕ → Answer → Self → Type 0 } = { λ _ _ _ _. ⊤ };

    /// What a get of a key changes.
    ghost gets: { Self → List ℕ → Answer → Self → Type 0 } = { λ _ _ _ _. ⊤ };

    /// What the question changes whether the put on a key with a version is settled.
    ghost dep_checks: { Self → List ℕ → ℕ → Answer → Self → Type 0 } = { λ _ _ _ _ _. ⊤ };

    /// What the question for the status of the node at a place changes.
    ghost statuses: { Self → ℕ → Option Standing → Self → Type 0 } = { λ _ _ _ _. ⊤ };

    /// What the end of a client's session changes.
    ghost ends: { Self → Self → Type 0 } = { λ _ _. ⊤ };

    /// The calls so far, each with its answer, in order.
    fn calls(&self) -> &[Call]
        ensures { result.now ≡ calls self.now };

    /// The session's format, which decides whether it has deletions. The format's number is the profile with which a
    /// client greets.
    fn format(&self) -> Format
        ensures { result ≡ format self.now };

    /// Makes room for one more call. Returns `Memory` when memory runs out.
    fn room(&mut self) -> Result<(), Memory>
        ensures kept { calls self.new ≡ calls self.old }
        ensures room { OnOk result (has_room self.new) }
        ensures same { rooms self.old self.new }
        ensures kept_format { format self.new ≡ format self.old }
        ensures ended { ended self.new ≡ ended self.old };

    /// Greets for a client: returns its data centre, below 16, and the number of nodes there, 1 to 64; or
    /// `UnknownClient` where there is no such client.
    fn hello(&mut self, client: u16) -> Result<(u8, u8), Refusal>
        requires { has_room self.old }
        ensures reported { calls self.new ≡ calls self.old ++ Call.Hello client result ∷ [] }
        ensures answer { IsWelcome result }
        ensures done { hellos self.old client result self.new }
        ensures kept_format { format self.new ≡ format self.old }
        ensures ended { ended self.new ≡ ended self.old };

    /// Puts a value: `PutDone`, or `Refused` with `ClockExhausted`, `UnknownClient`, `Memory`, `SessionFull` or
    /// `NotInFormat`.
    fn put<R: Wait>(&mut self, rt: &R, key: Key, value: Value) -> Reply
        requires { has_room self.old }
        ensures reported { calls self.new ≡ calls self.old ++ Call.Put key value result ∷ [] }
        ensures answer { IsPutReply result }
        ensures done { puts self.old key value result self.new }
        ensures kept_format { format self.new ≡ format self.old }
        ensures ended { ended self.new ≡ ended self.old };

    /// Deletes a key: `Deleted` where the format has deletions, or `Refused` with `ClockExhausted`, `UnknownClient`,
    /// `Memory`, `SessionFull` or `NotInFormat`.
    fn del<R: Wait>(&mut self, rt: &R, key: &Key) -> Reply
        requires { has_room self.old }
        ensures reported { calls self.new ≡ calls self.old ++ Call.Del key.now result ∷ [] }
        ensures answer { IsDelReply (format self.old) result }
        ensures done { dels self.old key.now result self.new }
        ensures kept_format { format self.new ≡ format self.old }
        ensures ended { ended self.new ≡ ended self.old };

    /// Gets a key: `Got` with a value that fits the format, `Gone` where the format has deletions, `Missed`, or
    /// `Refused` with `ContextFull`, `UnknownClient`, `Memory` or `SessionFull`.
    fn get<R: Wait>(&mut self, rt: &R, key: &Key) -> Reply
        requires { has_room self.old }
        ensures reported { calls self.new ≡ calls self.old ++ Call.Get key.now result ∷ [] }
        ensures answer { IsGetReply (format self.old) result }
        ensures done { gets self.old key.now result self.new }
        ensures kept_format { format self.new ≡ format self.old }
        ensures ended { ended self.new ≡ ended self.old };

    /// Whether this put is settled in the client's data centre: `Yes`, `Wait`, or `Refused` with `Memory`.
    fn dep_check<R: Wait>(&mut self, rt: &R, key: &Key, version: Version) -> Reply
        requires { has_room self.old }
        ensures reported { calls self.new ≡ calls self.old ++ Call.DepCheck key.now version result ∷ [] }
        ensures answer { IsCheckReply result }
        ensures done { dep_checks self.old key.now version result self.new }
        ensures kept_format { format self.new ≡ format self.old }
        ensures ended { ended self.new ≡ ended self.old };

    /// The status of the node at this place in the client's data centre, with a clock of at most 281,474,976,710,655;
    /// `None` where there is no such node.
    fn status<R: Wait>(&mut self, rt: &R, place: u8) -> Option<NodeStatus>
        requires { has_room self.old }
        ensures reported { calls self.new ≡ calls self.old ++ Call.Status place result ∷ [] }
        ensures answer { IsStanding result }
        ensures done { statuses self.old place result self.new }
        ensures kept_format { format self.new ≡ format self.old }
        ensures ended { ended self.new ≡ ended self.old };

    /// Called when a client's session has ended. It adds no call to the list.
    fn after_session<R: Wait>(&mut self, rt: &R)
        ensures kept { calls self.new ≡ calls self.old }
        ensures done { ends self.old self.new }
        ensures kept_format { format self.new ≡ format self.old }
        ensures counted { ended self.old < 2 ^ 64 - 1 → ended self.new ≡ ended self.old + 1 };
}
