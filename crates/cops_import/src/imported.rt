//! The result of an import.
ghost use Rattle.std.specs.Prelude.{◌≡◌, ◌++◌, IfOk, OnOk, string_bytes};
ghost use Rattle.cops_import.specs.Outcomes.{outcome_counts};
ghost use Rattle.cops_import.specs.Words.{client_line, client_lines, count_line, own_line, own_lines, reported_text};

use crate::fault::ImportFault;
use crate::name::Name;
use crate::names::Names;
use crate::outcome::Outcome;
use cops_outcomes::OutcomeCounts;
use cops_trace::Unwritten;
use cops_types::Counted;
use cops_wire::show_bytes;
use std::alloc::{AllocError, Global};
use std::io::Write;

/// What was imported: the names of the clients, each at its client's number, the outcomes of puts whose outcome was
/// unknown, in the order of their lines, and the number of operations of the trace. Returns the writer.
#[derive(Drop)]
pub struct Imported<W: Write> {
    pub names: Names,
    pub unknown: Vec<Outcome>,
    pub operations: usize,
    pub writer: Counted<W>,
}

impl<W: Write> Imported<W> {
    /// The text that an import prints: a line `client N NAME` for each client in the order of their numbers, then one
    /// `client N NAME, line L` for each put of unknown outcome that took effect, `imported: N operations, M clients`, and,
    /// if there are puts of unknown outcome, `unknown outcomes: N took effect, M left out` (`reported_text` in
    /// `specs/Words.antt`). In the names, ASCII letters, digits, `-`, `.` and `_` stand as they are, and any other byte
    /// as `%` and two lower case hexadecimal digits. Fails if memory runs out.
    pub fn reported(&self, alloc: Global) -> Result<String, AllocError>
        ensures ok { IfOk result (λ text. string_bytes text ≡ reported_text self.now.names self.now.unknown.items self.now.operations) }
    {
        reported(alloc, &self.names, &self.unknown, self.operations)
    }
}

/// How many puts of unknown outcome took effect, and how many are left out.
pub fn outcome_counts(unknown: &[Outcome]) -> OutcomeCounts
    ensures { result ≡ outcome_counts unknown.now }
{
    let took_effect = unknown.iter().filter(|o| o.version.is_some()).count();
    OutcomeCounts {
        took_effect,
        left_out: unknown.len() - took_effect,
    }
}

/// The printed text for these clients, outcomes and this number of operations.
fn reported(
    alloc: Global,
    names: &Names,
    unknown: &[Outcome],
    operations: usize,
) -> Result<String, AllocError>
    ensures { IfOk result (λ text. string_bytes text ≡ reported_text names.now unknown.now operations) }
{
    let outcomes = outcome_counts(unknown);
    let mut text = client_lines(alloc, names)?;
    push_own_lines(&mut text, names.len(), unknown)?;
    let clients = names.len() as u128 + outcomes.took_effect as u128;
    text.push_str(&count_line(alloc, operations, clients)?)?;
    text.push_str(&outcomes.text(alloc)?)?;
    Ok(text)
}

/// Appends a line for each put that took effect, whose clients are numbered from this number on.
fn push_own_lines(text: &mut String, first: usize, unknown: &[Outcome]) -> Result<(), AllocError>
    ensures { OnOk result (string_bytes text.new ≡ string_bytes text.old ++ own_lines first unknown.now) }
{
    let mut number = first as u128;
    for outcome in unknown {
        if outcome.version.is_some() {
            push_own(text, number, outcome)?;
            number += 1;
        }
    }
    Ok(())
}

/// Appends the line of a put's own client.
fn push_own(text: &mut String, number: u128, outcome: &Outcome) -> Result<(), AllocError>
    ensures { OnOk result (string_bytes text.new ≡ string_bytes text.old ++ own_line number outcome.now) }
{
    write!(text, "client {number} ")?;
    show_bytes(outcome.name.as_bytes(), text)?;
    let line = outcome.line;
    write!(text, ", line {line}\n")
}

/// The line with the numbers of operations and clients.
fn count_line(alloc: Global, operations: usize, clients: u128) -> Result<String, AllocError>
    ensures { IfOk result (λ line. string_bytes line ≡ count_line operations clients) }
{
    format!(in alloc; "imported: {operations} operations, {clients} clients\n")
}

/// A line for each client.
fn client_lines(alloc: Global, names: &Names) -> Result<String, AllocError>
    ensures { IfOk result (λ text. string_bytes text ≡ client_lines 0 names.now) }
{
    let mut text = String::new(alloc);
    for number in 0..names.len() {
        push_client(&mut text, number, names.name(number))?;
    }
    Ok(text)
}

/// Appends a client's line.
fn push_client(text: &mut String, number: usize, name: &Name) -> Result<(), AllocError>
    ensures { OnOk result (string_bytes text.new ≡ string_bytes text.old ++ client_line number name.now) }
{
    write!(text, "client {number} ")?;
    show_bytes(name.as_bytes(), text)?;
    text.push('\n')
}

/// The writer of a failed import, and why it failed.
#[derive(Drop)]
pub struct Unimported<W: Write> {
    pub writer: Counted<W>,
    pub fault: ImportFault,
}

/// Converts a failed write of a trace: the writer and the reason stay the same.
impl<W: Write> From<Unwritten<W>> for Unimported<W> {
    ghost use Rattle.std.specs.Prelude.{◌≡◌};
    ghost use Rattle.cops_import.specs.Writing.{fault_of};

    ghost from_gives = { λ u r. r ≡ record { writer = u.writer; fault = fault_of u.fault } };

    fn from(e: Unwritten<W>) -> Unimported<W> {
        let Unwritten { writer, fault } = e;
        Unimported {
            writer,
            fault: ImportFault::from(fault),
        }
    }
}
