//! The printed line of an outcome.
ghost use Rattle.std.specs.Prelude.{◌≡◌, ◌++◌, OnOk, OnErr, IfOk, string_bytes};
ghost use Rattle.cops_scenario.specs.Lines.{words, outcome_line};

use cops_node::Outcome;
use cops_types::Memory;
use std::alloc::{AllocError, Global};

/// Appends the line of the event with this number, from 0: the number, a space, and the outcome's words. Appends
/// nothing if memory runs out.
pub fn outcome_line(
    alloc: Global,
    n: usize,
    outcome: &Outcome,
    out: &mut Vec<u8>,
) -> Result<(), Memory>
    ensures ok { OnOk result (out.new.items ≡ out.old.items ++ outcome_line n outcome.now) }
    ensures err { OnErr result (out.new.items ≡ out.old.items) }
{
    let words = words(alloc, outcome)?;
    let line = format!(in alloc; "{n} {words}\n")?;
    out.extend_from_slice(line.as_bytes())?;
    Ok(())
}

fn words(alloc: Global, outcome: &Outcome) -> Result<String, AllocError>
    ensures { IfOk result (λ s. string_bytes s ≡ words outcome.now) }
{
    match outcome {
        Outcome::PutDone(version) => format!(in alloc; "done {version}"),
        Outcome::Deleted(version) => format!(in alloc; "deleted {version}"),
        Outcome::Got(_, version) => format!(in alloc; "got {version}"),
        Outcome::Gone(version) => format!(in alloc; "gone {version}"),
        Outcome::Missed => format!(in alloc; "missed"),
        Outcome::Held => format!(in alloc; "held"),
        Outcome::Repeat => format!(in alloc; "repeat"),
        Outcome::Yes => format!(in alloc; "yes"),
        Outcome::Wait => format!(in alloc; "wait"),
        Outcome::Marked => format!(in alloc; "marked"),
        Outcome::Settled => format!(in alloc; "settled"),
        Outcome::Refused(refusal) => {
            let code = refusal.code();
            format!(in alloc; "refused {code}")
        }
    }
}
