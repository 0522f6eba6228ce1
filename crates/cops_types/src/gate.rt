//! Points at which a call can be held, so that a test can show which steps of calls on threads run concurrently.
use std::sync::Wait;

/// A point that a call passes.
#[derive(Clone, Copy, Debug, PartialEq, Eq)]
pub enum Point {
    /// A worker is about to judge the piece of this number, 0 to 63.
    PieceStart(u32),
    /// A worker has judged the piece of this number, 0 to 63.
    PieceDone(u32),
    /// A step of this client has locked this node, and has not called it yet. A receiver's client is 65,535.
    InStep {
        /// The node, 0 to 1,023.
        node: u16,
        /// The client, 0 to 65,535.
        client: u16,
    },
    /// This node has answered a step of this client, and its lock is released. A receiver's client is 65,535.
    Answered {
        /// The node, 0 to 1,023.
        node: u16,
        /// The client, 0 to 65,535.
        client: u16,
    },
}

/// The error of a call that was held at a point, and went no further.
#[derive(Clone, Copy, Debug, PartialEq, Eq)]
pub struct GateHeld;

/// Decides at each point of a call whether the call goes on.
pub trait Gate: Sync {
    ghost use Rattle.cops_types.specs.declared.gate.Point.{Point};
    ghost use Rattle.std.specs.Prelude.{OnErr};

    /// The points at which the gate may hold a call.
    ghost may_hold: { Self → Point → Type 0 };

    /// Lets the call past the point, at once or after other calls reached theirs. Fails with `GateHeld` if it holds the
    /// call.
    fn pass<R: Wait>(&self, rt: &R, point: Point) -> Result<(), GateHeld>
        ensures { OnErr result (may_hold self.now point) };
}

/// The gate that never holds a call, for all use but tests.
pub struct OpenGate;

impl Gate for OpenGate {
    ghost may_hold = { λ _ _. ⊥ };

    fn pass<R: Wait>(&self, _rt: &R, _point: Point) -> Result<(), GateHeld> {
        Ok(())
    }
}
