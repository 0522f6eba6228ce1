//! What a call leaves in its caller's memory.
ghost use Rattle.std.specs.Prelude.{◌≡◌, ◌≤◌, ◌⊎◌, ◌++◌, length, drop};
ghost use Rattle.cops_command.specs.Status.{number};
ghost use Rattle.cops_command.specs.declared.status.Status.TheVariants.{NoMemory};
ghost use Rattle.cops_c_interface.specs.Left.{IsLeft, IsTooSmall, IsWritten};

use cops_audit_commands::Answer;
use cops_command::Status;
use cops_types::Memory;

/// The status of a call whose buffer is shorter than the text.
pub const TOO_SMALL: u8 = 5;

/// Copies a text to the beginning of a buffer that is long enough.
fn put(output: &mut [u8], text: &[u8])
    requires { length text.now ≤ length output.old }
    ensures { output.new ≡ text.now ++ drop (length text.now) output.old }
{
    output[..text.len()].copy_from_slice(text);
}

/// Leaves the text of an answer in a buffer that is long enough, and returns the status.
fn fill(answer: Answer, text: &[u8], output: &mut [u8]) -> u8
    ensures { IsWritten answer text.now output.old output.new (length text.now) result ⊎ IsTooSmall text.now output.old output.new (length text.now) result }
{
    if text.len() > output.len() {
        return TOO_SMALL;
    }
    put(output, text);
    answer.status().number()
}

/// Leaves nothing, and returns the status.
fn no_memory(written: &mut usize) -> u8
    ensures { (written.new ≡ 0) × (result ≡ number NoMemory) }
{
    *written = 0;
    Status::NoMemory.number()
}

/// Leaves what was said in the caller's memory, and returns the status.
pub(crate) fn leave(
    said: Result<(Answer, Vec<u8>), Memory>,
    output: &mut [u8],
    written: &mut usize,
) -> u8
    ensures { IsLeft said output.old output.new written.new result }
{
    match said {
        Ok((answer, text)) => {
            *written = text.len();
            fill(answer, &text, output)
        }
        Err(Memory) => no_memory(written),
    }
}
