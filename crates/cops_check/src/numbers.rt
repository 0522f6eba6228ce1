//! The numbers of the lines of operations.
ghost use Rattle.std.specs.Prelude.{◌≡◌, ◌++◌, [], ℕ, IfOk, OnOk, filter, map, nat_eq, not, replicate};
ghost use Rattle.std.specs.List.{list_any};
ghost use Rattle.cops_import.specs.Lines.{lines};
ghost use Rattle.cops_import.specs.Outcomes.{took_effect};
ghost use Rattle.cops_check.specs.Numbers.{numbers_from, op_lines, trace_lines, with_number};

use cops_import::{Outcome, cut_line, is_blank};
use indexmap::IndexSet;
use std::alloc::{AllocError, Global};

/// The numbers of the lines of a text that are not blank, counted from 1. Fails if memory runs out.
pub(crate) fn line_numbers(alloc: Global, bytes: &[u8]) -> Result<Vec<u64>, AllocError>
    ensures { IfOk result (λ numbers. numbers.items ≡ numbers_from 1 (lines bytes.now)) }
{
    let mut numbers = Vec::new(alloc);
    let mut number = 1;
    let mut rest = bytes;
    while let Some((line, behind)) = cut_line(rest) {
        if !is_blank(line) {
            numbers.push(number)?;
        }
        number += 1;
        rest = behind;
    }
    if !is_blank(rest) {
        numbers.push(number)?;
    }
    Ok(numbers)
}

/// The lines of these puts. Fails if memory runs out.
fn lines_of(alloc: Global, unknown: &[Outcome]) -> Result<IndexSet<u64>, AllocError>
    ensures { IfOk result (λ lines. (number : ℕ) → list_any (nat_eq number) lines.keys ≡ list_any (λ o. nat_eq number o.line) unknown.now) }
{
    let mut lines = IndexSet::new(alloc);
    for outcome in unknown {
        lines.insert(outcome.line)?;
    }
    Ok(lines)
}

/// Those of these numbers that are not among others, in their order. Fails if memory runs out.
fn without(alloc: Global, numbers: &[u64], others: &IndexSet<u64>) -> Result<Vec<u64>, AllocError>
    ensures { IfOk result (λ kept. kept.items ≡ filter (λ number. not (list_any (nat_eq number) others.now.keys)) numbers.now) }
{
    numbers
        .iter()
        .copied()
        .filter(|number| !others.contains(number))
        .collect(alloc)
}

/// Adds the lines of those of these puts that took effect. Fails if memory runs out.
fn add_own_lines(numbers: &mut Vec<u64>, unknown: &[Outcome]) -> Result<(), AllocError>
    ensures { OnOk result (numbers.new.items ≡ numbers.old.items ++ map (λ o. o.line) (took_effect unknown.now)) }
{
    for outcome in unknown {
        if outcome.version.is_some() {
            numbers.push(outcome.line)?;
        }
    }
    Ok(())
}

/// The lines of the operations of a trace, in the order of its records: of these numbers those that are no line of a put of
/// unknown outcome, and then the lines of those puts that took effect. Fails if memory runs out.
pub(crate) fn trace_lines(
    alloc: Global,
    numbers: &[u64],
    unknown: &[Outcome],
) -> Result<Vec<u64>, AllocError>
    ensures { IfOk result (λ all. all.items ≡ trace_lines numbers.now unknown.now) }
{
    let skipped = lines_of(alloc, unknown)?;
    let mut all = without(alloc, numbers, &skipped)?;
    add_own_lines(&mut all, unknown)?;
    Ok(all)
}

/// An empty list for each client.
fn no_numbers(alloc: Global, clients: u16) -> Result<Vec<Vec<u64>>, AllocError>
    ensures { IfOk result (λ table. map (λ numbers. numbers.items) table.items ≡ replicate clients []) }
{
    let mut table = Vec::new(alloc);
    for _client in 0..clients {
        table.push(Vec::new(alloc))?;
    }
    Ok(table)
}

/// Adds a number at the end of its client's, if there is such a client.
fn add_number(table: &mut Vec<Vec<u64>>, client: u16, number: u64) -> Result<(), AllocError>
    ensures { OnOk result (map (λ numbers. numbers.items) table.new.items ≡ with_number (map (λ numbers. numbers.items) table.old.items) client number) }
{
    let at = usize::from(client);
    if at < table.len() {
        table[at].push(number)?;
    }
    Ok(())
}

/// For each of `clients` clients the numbers of the lines of its operations: `arrivals` has the clients of operations in
/// the order of their lines, and `numbers` the numbers of these. Fails if memory runs out.
pub(crate) fn op_lines(
    alloc: Global,
    clients: u16,
    arrivals: &[u16],
    numbers: &[u64],
) -> Result<Vec<Vec<u64>>, AllocError>
    ensures { IfOk result (λ table. map (λ numbers. numbers.items) table.items ≡ op_lines clients arrivals.now numbers.now) }
{
    let mut table = no_numbers(alloc, clients)?;
    for (client, number) in arrivals.iter().zip(numbers) {
        add_number(&mut table, *client, *number)?;
    }
    Ok(table)
}
