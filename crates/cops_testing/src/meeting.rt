//! A gate at which two calls meet.
use cops_types::{Gate, GateHeld, Point};
use std::sync::Wait;
use std::sync::atomic::{AtomicBool, Ordering};
use std::thread;

/// How many turns a test waits for an event.
pub const TURNS: u32 = 10_000_000;

/// A gate with two points. A call that reaches one of them is held until the other one is reached.
#[derive(Drop)]
pub struct Meeting {
    first: Point,
    second: Point,
    first_reached: AtomicBool,
    second_reached: AtomicBool,
}

impl Meeting {
    ghost use Rattle.std.specs.Prelude.{◌≡◌};

    /// The gate with these two points, neither of which is reached yet.
    pub fn new(first: Point, second: Point) -> Meeting
        ensures first { result.first ≡ first }
        ensures second { result.second ≡ second }
    {
        Meeting {
            first,
            second,
            first_reached: AtomicBool::new(false),
            second_reached: AtomicBool::new(false),
        }
    }
}

/// Waits until the flag is set, and gives up with `GateHeld` after `TURNS` turns, in each of which other threads may
/// run.
pub fn waits_for(flag: &AtomicBool) -> Result<(), GateHeld> {
    for _ in 0..TURNS {
        if flag.load(Ordering::SeqCst) {
            return Ok(());
        }
        thread::yield_now();
    }
    Err(GateHeld)
}

impl Gate for Meeting {
    ghost use Rattle.std.specs.Prelude.{◌≡◌, ◌⊎◌};

    ghost may_hold = { λ g point. (point ≡ g.first) ⊎ (point ≡ g.second) };

    fn pass<R: Wait>(&self, _rt: &R, point: Point) -> Result<(), GateHeld> {
        if point == self.first {
            self.first_reached.store(true, Ordering::SeqCst);
            return waits_for(&self.second_reached);
        }
        if point == self.second {
            self.second_reached.store(true, Ordering::SeqCst);
            return waits_for(&self.first_reached);
        }
        Ok(())
    }
}
