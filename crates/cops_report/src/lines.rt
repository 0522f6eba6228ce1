//! The versions that reports name, and the line of a stale get.
ghost use Rattle.std.specs.Prelude.{◌≡◌, ◌++◌, OnOk, string_bytes};
ghost use Rattle.cops_types.specs.Histories.{op_at};
ghost use Rattle.cops_audit.specs.declared.verdict.Stale.{Stale};
ghost use Rattle.cops_report.specs.Reports.{HasSomeVersion, chain_text, returned_text, stale_line, version_at};

use cops_audit::Stale;
use cops_types::{History, OpName, OpRef, Version};
use std::alloc::AllocError;
use std::fmt::Write;

/// The version of a put, or of what a get returned.
pub fn version_at(history: &History, name: OpName) -> Version
    requires { HasSomeVersion history.now.sessions name }
    ensures { result ≡ version_at history.now.sessions name }
{
    match history.op(name) {
        Some(OpRef::Put { version, .. }) => *version,
        Some(OpRef::Got { version, .. }) => *version,
        _ => unreachable!(),
    }
}

/// Adds the names of a chain, each after a space.
fn chain_names(text: &mut String, names: &[OpName]) -> Result<(), AllocError>
    ensures { OnOk result (string_bytes text.new ≡ string_bytes text.old ++ chain_text names.now) }
{
    for name in names {
        write!(text, " {name}")?;
    }
    Ok(())
}

/// Adds what a get returned.
fn returned(text: &mut String, history: &History, name: OpName) -> Result<(), AllocError>
    ensures { OnOk result (string_bytes text.new
        ≡ string_bytes text.old ++ returned_text (op_at history.now.sessions name)) }
{
    match history.op(name) {
        Some(OpRef::Got { version, .. }) => write!(text, "{version}"),
        _ => text.push_str("nothing"),
    }
}

/// Adds the line of a stale get, with the chain from the newer put to it.
pub fn stale(
    text: &mut String,
    history: &History,
    fault: Stale,
    chain: &[OpName],
) -> Result<(), AllocError>
    requires { HasSomeVersion history.now.sessions fault.newer }
    ensures { OnOk result (string_bytes text.new
        ≡ string_bytes text.old ++ stale_line history.now.sessions fault chain.now) }
{
    let op = fault.op;
    let newer = fault.newer;
    let version = version_at(history, newer);
    write!(text, "stale {op} returned ")?;
    returned(text, history, op)?;
    write!(text, ", newer {newer} at {version}, chain")?;
    chain_names(text, chain)?;
    text.push_str("\n")
}
