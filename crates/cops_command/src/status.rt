//! How a command ends.
ghost use Rattle.std.specs.Prelude.{◌≡◌, ◌≤◌, ◌⊎◌, ℕ, length, take};
ghost use Rattle.std.specs.Io.KnownBytes.{Appends};
ghost use Rattle.cops_types.specs.Failures.{Failed as DidFail};
ghost use Rattle.cops_types.specs.Counted.{failures, inner};
ghost use Rattle.cops_command.specs.Status.{number};
ghost use Rattle.cops_command.specs.declared.status.Status.TheVariants.{Failed};

use cops_types::{Counted, write_text};
use std::io::Write;

/// The way in which a command ends. The numbers are the program's statuses.
#[derive(Clone, Copy, Debug, PartialEq, Eq)]
pub enum Status {
    /// A history that is accepted, or an input that was shown whole.
    Accepted = 0,
    /// A history that is refused.
    Refused = 1,
    /// A faulty input, or a wrong command line.
    Faulty = 2,
    /// Out of memory.
    NoMemory = 3,
    /// A device's fault, or a run that failed.
    Failed = 4,
}

impl Status {
    ghost use Rattle.std.specs.Prelude.{◌≡◌};
    ghost use Rattle.cops_command.specs.Status.{number};

    /// The number with which the program ends.
    pub fn number(self) -> u8
        ensures { result ≡ number self }
    {
        self as u8
    }
}

/// Reports a fault by a line on `errors`, whose own faults are not reported, and returns the status.
pub fn failed<E: Write>(errors: &mut Counted<E>, text: &[u8]) -> u8
    ensures status { result ≡ number Failed }

    // A prefix of the text was written, and all of it unless a write failed.
    ensures reported { (n : ℕ) × Appends (E.contents (inner errors.old)) (E.contents (inner errors.new)) (take n text.now)
        × ((length text.now ≤ n) ⊎ DidFail (failures errors.old) (failures errors.new)) }
{
    let _ = write_text(errors, text);
    Status::Failed.number()
}

/// Prints a text, and returns this status, or that of a write that failed, which is reported by a line on `errors`.
pub fn print<W: Write, E: Write>(
    text: &[u8],
    status: Status,
    out: &mut Counted<W>,
    errors: &mut Counted<E>,
) -> u8
    ensures whole { (result ≡ number Failed) ⊎ ((result ≡ number status) × Appends (W.contents (inner out.old)) (W.contents (inner out.new)) text.now) }
    ensures failed { result ≡ number Failed → (status ≡ Failed) ⊎ DidFail (failures out.old) (failures out.new) }
    ensures heard { (result ≡ number Failed) ⊎ (failures out.new ≡ failures out.old) }
{
    match write_text(out, text) {
        Ok(()) => status.number(),
        Err(_) => failed(errors, b"failed: write\n"),
    }
}
