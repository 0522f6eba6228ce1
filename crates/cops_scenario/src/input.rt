//! The reading of a scenario.
ghost use Rattle.std.specs.Prelude.{◌≡◌, ◌⊎◌, Ok, Err, IsOk, IfOk, IfErr, IfSome};
ghost use Rattle.cops_types.specs.Failures.{Failed as DidFail};
ghost use Rattle.cops_types.specs.Counted.{failures, inner};
ghost use Rattle.cops_scenario.specs.File.{IsNoScenario, IsTextOf};
ghost use Rattle.cops_command.specs.Status.{number};
ghost use Rattle.cops_command.specs.declared.status.Status.TheVariants.{Failed, Faulty};

use crate::fault::ScenarioFault;
use crate::scenario::Scenario;
use cops_command::{Status, failed, print, read_all};
use cops_types::{Counted, Memory};
use std::alloc::Global;
use std::io::{Read, Write};

/// The scenario to which the reader's bytes decode, or the status of a command that has none: `Faulty` where they
/// decode to none, which is reported by a line on `out`, and `Failed` where a read failed, or a write of that line,
/// which is reported by a line on `errors`. The only error is `Memory`, where memory runs out.
pub fn read_scenario<R: Read, W: Write, E: Write>(
    alloc: Global,
    reader: &mut Counted<R>,
    out: &mut Counted<W>,
    errors: &mut Counted<E>,
) -> Result<Result<Scenario, u8>, Memory>
    ensures reported { IfOk result (λ read. IfOk read (λ scenario. IfSome (R.remaining (inner reader.old)) (λ bytes. IsTextOf bytes scenario))) }
    ensures unwritten { IfOk result (λ read. IsOk read → out.new ≡ out.old) }
    ensures none { IfOk result (λ read. IfErr read (λ status. (status ≡ number Failed) ⊎ ((status ≡ number Faulty) × IfSome (R.remaining (inner reader.old)) IsNoScenario))) }
    ensures failed { result ≡ Ok (Err (number Failed)) → DidFail (failures reader.old) (failures reader.new) ⊎ DidFail (failures out.old) (failures out.new) }
    ensures heard { (result ≡ Ok (Err (number Failed))) ⊎ ((failures reader.new ≡ failures reader.old) × (failures out.new ≡ failures out.old)) }
{
    let Some(bytes) = read_all(alloc, reader)? else {
        return Ok(Err(failed(errors, b"failed: read\n")));
    };
    match Scenario::from_json(alloc, &bytes) {
        Ok(scenario) => Ok(Ok(scenario)),
        Err(ScenarioFault::Memory) => Err(Memory),
        Err(ScenarioFault::NotJson) => Ok(Err(faulty(alloc, ScenarioFault::NotJson, out, errors)?)),
        Err(ScenarioFault::BadField(field)) => Ok(Err(faulty(
            alloc,
            ScenarioFault::BadField(field),
            out,
            errors,
        )?)),
    }
}

/// Prints the line of a faulty scenario, and returns the status.
fn faulty<W: Write, E: Write>(
    alloc: Global,
    fault: ScenarioFault,
    out: &mut Counted<W>,
    errors: &mut Counted<E>,
) -> Result<u8, Memory>
    ensures status { IfOk result (λ status. (status ≡ number Faulty) ⊎ (status ≡ number Failed)) }
    ensures failed { result ≡ Ok (number Failed) → DidFail (failures out.old) (failures out.new) }
    ensures heard { (result ≡ Ok (number Failed)) ⊎ (failures out.new ≡ failures out.old) }
{
    let line = format!(in alloc; "faulty: {fault}\n")?;
    Ok(print(line.as_bytes(), Status::Faulty, out, errors))
}
