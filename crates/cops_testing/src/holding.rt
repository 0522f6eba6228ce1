//! Gates that hold calls.
use cops_types::{Gate, GateHeld, Point};
use std::sync::Wait;

/// Holds each call at one point.
#[derive(Clone, Copy)]
pub struct HoldsAt {
    pub point: Point,
}

impl Gate for HoldsAt {
    ghost use Rattle.std.specs.Prelude.{◌≡◌};

    ghost may_hold = { λ g point. point ≡ g.point };

    fn pass<R: Wait>(&self, _rt: &R, point: Point) -> Result<(), GateHeld> {
        if point == self.point {
            return Err(GateHeld);
        }
        Ok(())
    }
}

/// Holds each step of a client under the node's lock.
#[derive(Clone, Copy)]
pub struct HoldsSteps {
    pub client: u16,
}

impl Gate for HoldsSteps {
    ghost may_hold = { λ _ _. Unit {0} };

    fn pass<R: Wait>(&self, _rt: &R, point: Point) -> Result<(), GateHeld> {
        match point {
            Point::InStep { client, .. } if client == self.client => Err(GateHeld),
            _ => Ok(()),
        }
    }
}

/// Holds the caller of each step of a client after the node's answer.
#[derive(Clone, Copy)]
pub struct HoldsAnswers {
    pub client: u16,
}

impl Gate for HoldsAnswers {
    ghost may_hold = { λ _ _. Unit {0} };

    fn pass<R: Wait>(&self, _rt: &R, point: Point) -> Result<(), GateHeld> {
        match point {
            Point::Answered { client, .. } if client == self.client => Err(GateHeld),
            _ => Ok(()),
        }
    }
}
