//! The lines that serving writes before its first session.
use cops_scenario::Scenario;
use cops_types::{Counted, write_text};
use std::alloc::{AllocError, Global};
use std::io::Write;

/// The line on what a scenario has that serving does not run, if it has that: scripts of clients, or events.
fn unrun(scenario: &Scenario) -> Option<&'static [u8]> {
    for client in scenario.clients() {
        if !client.script.is_empty() {
            return Some(b"the scripts of the scenario are not run\n");
        }
    }
    match scenario.events() {
        Some(events) if !events.is_empty() => Some(b"the events of the scenario are not run\n"),
        _ => None,
    }
}

/// Writes a line if the scenario has scripts or events, since serving runs none. A failed write is ignored.
pub(crate) fn note_unrun<E: Write>(scenario: &Scenario, errors: &mut Counted<E>) {
    if let Some(line) = unrun(scenario) {
        let _ = write_text(errors, line);
    }
}

/// Writes the line that names the port on which clients are served from now on. A failed write is ignored. The only
/// error is that of an allocation that failed, where nothing is written.
pub(crate) fn announce<E: Write>(
    alloc: Global,
    port: u16,
    errors: &mut Counted<E>,
) -> Result<(), AllocError> {
    let line = format!(in alloc; "listening on 127.0.0.1:{port}\n")?;
    let _ = write_text(errors, line.as_bytes());
    let _ = errors.flush();
    Ok(())
}
