//! The commands over any readers and writers. The contract of each says what the writers gained.
ghost use Rattle.std.specs.Prelude.{◌≡◌, ◌≢◌, ◌≤◌, ◌⊎◌, ℕ, true, false, IfSome, IsOkAnd, Ok, Err};
ghost use Rattle.std.specs.Io.KnownBytes.{Appends, Keeps};
ghost use Rattle.cops_types.specs.declared.limits.TheConstants.{MAX_WORKERS};
ghost use Rattle.cops_types.specs.Counted.{inner};
ghost use Rattle.cops_trace.specs.declared.fault.TraceFault.{TraceFault as AFault};
ghost use Rattle.cops_trace.specs.Lines.{fault_line as fault_text};
ghost use Rattle.cops_import.specs.Words.{reported_text, faulty_line as faulty_text};
ghost use Rattle.cops_audit_commands.specs.Audit.{Writes, answer_status};
ghost use Rattle.cops_audit_commands.specs.Convert.{converted_line as converted_text};
ghost use Rattle.cops_audit_commands.specs.Convergent.{EncodesConvergent};
ghost use Rattle.cops_audit_commands.specs.Show.{Shows};
ghost use Rattle.cops_audit_commands.specs.SoFar.{IsSoundSoFar, WritesSoFar};
ghost use Rattle.cops_check.specs.Check.{DescribesConvergent, WritesChecked};
ghost use Rattle.cops_scenario.specs.File.{IsNoScenario};
ghost use Rattle.cops_command.specs.Status.{number, number as status_number};
ghost use Rattle.cops_command.specs.declared.status.Status.TheVariants.{Accepted, Failed, Faulty, NoMemory, Refused};
ghost use Rattle.cops_run_command.specs.Running.{EndsWell as HasRun};
ghost use Rattle.cops_serve.specs.Serving.{EndsTraced};
ghost use Rattle.cops.specs.Status.{Checks, EndsFaulty, EndsRefused, EndsWell, Explains, HasAnswered, Gains, HasConverted, HasServed, Imports, IsFaultyAnswer, IsReadOnce, IsSurveyed, IsUnconverted, MayWork, PrintsLine, StopsAtLine, IsNoTraceText, HasOtherFault, IsTraceText, drawn_text, request_of};

use crate::output::Output;
use cops_audit_commands::{
    Answer, Explained, Request, StreamFault, audit_so_far, audit_stream, convert_stream,
    converted_line, explain_stream, show_stream,
};
use cops_check::{CheckFault, Followed, check_stream, follow_stream};
use cops_command::{Status, print};
use cops_command_line::{Job, Wanted};
use cops_import::{
    Expected, ImportFault, Imported, JsonLineFault, Rules, Surveyed, Unimported, faulty_line,
    import_stream,
};
use cops_run_command::{Streamed, run_stream};
use cops_serve::{Door, serve_stream};
use cops_trace::{ConvertFault, TraceFault, fault_line};
use cops_types::{Counted, Memory, OpenGate, write_text};
use std::alloc::Global;
use std::io::{Read, Write};
use std::net::{Net, TcpListener, TcpStream};
use std::sync::Wait;
use std::thread::Threads;
use std::time::Clock;

/// The line for out of memory.
const NO_MEMORY: &[u8] = b"failed: memory\n";

/// The line for a picture that was asked for where there is no such fault.
const NOT_DRAWN: &[u8] = b"nothing was drawn: there is no such fault\n";

/// The writers of a command: for the trace or the picture that it makes, for what it prints, and for why it failed.
#[derive(Drop)]
pub struct Outputs<T, W, E> {
    pub made: Counted<T>,
    pub out: Counted<W>,
    pub errors: Counted<E>,
}

/// The status of a command, and its writers.
#[derive(Drop)]
pub struct Ended<T, W, E> {
    pub status: u8,
    pub outputs: Outputs<T, W, E>,
}

/// Runs a job over its input. For an import, `surveyed` is what a first reading of the input found, with versions read as
/// the job wants.
pub fn command<R, I, T, W, E>(
    rt: &R,
    job: Job<'_>,
    surveyed: Surveyed,
    input: &mut Counted<I>,
    outputs: Outputs<T, W, E>,
) -> Ended<T, W, E>
where
    R: AllocGlobal + Threads + Wait + Sync + Clock,
    R: Net<Listener = TcpListener, Stream = TcpStream>,
    I: Read + Send,
    T: Write + Output + Send + Drop,
    W: Write + Drop,
    E: Write + Drop,
    ensures well { result.status ≡ number Accepted → IsSurveyed job.entry surveyed.versions → IfSome (I.remaining (inner input.old)) (λ bytes. EndsWell job.entry bytes
        (T.contents (inner outputs.made)) (T.contents (inner result.outputs.made)) (W.contents (inner outputs.out)) (W.contents (inner result.outputs.out))) }
    ensures refused { result.status ≡ number Refused → IfSome (I.remaining (inner input.old)) (λ bytes. EndsRefused job.entry bytes
        (T.contents (inner outputs.made)) (T.contents (inner result.outputs.made)) (W.contents (inner outputs.out)) (W.contents (inner result.outputs.out))) }
    ensures faulty { result.status ≡ number Faulty → MayWork job.entry → IsSurveyed job.entry surveyed.versions → IfSome (I.remaining (inner input.old)) (λ bytes. EndsFaulty job.entry bytes
        (T.contents (inner outputs.made)) (T.contents (inner result.outputs.made)) (W.contents (inner outputs.out)) (W.contents (inner result.outputs.out))) }
{
    match job {
        Job::Import { format, .. } => {
            let Surveyed { expected, versions } = surveyed;
            let rules = Rules { format, versions };
            import(rt.alloc(), rules, expected, input, outputs)
        }
        job => {
            drop(surveyed);
            reading_once(rt, job, input, outputs)
        }
    }
}

/// Runs a job that is no import over its input.
#[tactic(auto, using(crate::proofs::Kept::explained))]
fn reading_once<R, I, T, W, E>(
    rt: &R,
    job: Job<'_>,
    input: &mut Counted<I>,
    outputs: Outputs<T, W, E>,
) -> Ended<T, W, E>
where
    R: AllocGlobal + Threads + Wait + Sync + Clock,
    R: Net<Listener = TcpListener, Stream = TcpStream>,
    I: Read + Send,
    T: Write + Output + Send + Drop,
    W: Write + Drop,
    E: Write + Drop,
    requires { IsReadOnce job }
    ensures well { result.status ≡ number Accepted → IfSome (I.remaining (inner input.old)) (λ bytes. EndsWell job.entry bytes
        (T.contents (inner outputs.made)) (T.contents (inner result.outputs.made)) (W.contents (inner outputs.out)) (W.contents (inner result.outputs.out))) }
    ensures refused { result.status ≡ number Refused → IfSome (I.remaining (inner input.old)) (λ bytes. EndsRefused job.entry bytes
        (T.contents (inner outputs.made)) (T.contents (inner result.outputs.made)) (W.contents (inner outputs.out)) (W.contents (inner result.outputs.out))) }
    ensures faulty { result.status ≡ number Faulty → MayWork job.entry → IfSome (I.remaining (inner input.old)) (λ bytes. EndsFaulty job.entry bytes
        (T.contents (inner outputs.made)) (T.contents (inner result.outputs.made)) (W.contents (inner outputs.out)) (W.contents (inner result.outputs.out))) }
{
    match job {
        Job::Audit { workers, .. } => audit(rt, workers, input, outputs),
        Job::SoFar { .. } => so_far(rt.alloc(), input, outputs),
        Job::Explain { wanted, .. } => explain(rt.alloc(), request(wanted), input, outputs),
        Job::Check {
            is_ranked,
            wanted,
            ..
        } => check(rt.alloc(), is_ranked, request(wanted), input, outputs),
        Job::Follow { is_ranked, .. } => follow(rt, is_ranked, input, outputs),
        Job::Show { .. } => show(rt.alloc(), input, outputs),
        Job::Import { .. } => unreachable!(),
        Job::Convert { .. } => convert(rt.alloc(), input, outputs),
        Job::Run { .. } => run_scenario(rt, input, outputs),
        Job::Serve {
            port,
            sessions,
            idle,
            trace,
            is_announced,
            ..
        } => {
            let door = Door {
                port,
                sessions,
                idle,
                is_announced,
                keeps_trace: trace.is_some(),
            };
            serve(rt, door, input, outputs)
        }
    }
}

/// The explanation that the words want.
fn request(wanted: Wanted<'_>) -> Request
    ensures { result ≡ request_of wanted.entry }
{
    Request {
        faults: wanted.faults,
        is_drawn: wanted.picture.is_some(),
        is_json: wanted.is_json,
    }
}

/// Prints why the command failed, and returns the status.
fn failed<E: Write>(errors: &mut Counted<E>, why: &[u8], status: Status) -> u8
    ensures { result ≡ number status }
{
    let _ = write_text(errors, why);
    status.number()
}

/// The status that a command returned, or that of out of memory, which is reported by a line.
fn status_of<E: Write>(errors: &mut Counted<E>, status: Result<u8, Memory>) -> u8
    ensures { (status ≡ Ok result) ⊎ (result ≡ number NoMemory) }
{
    match status {
        Ok(status) => status,
        Err(Memory) => failed(errors, NO_MEMORY, Status::NoMemory),
    }
}

/// The status with which an audit ends. Where there is no answer, a line reports why.
fn audit_status<E: Write>(errors: &mut Counted<E>, audited: Result<Answer, StreamFault>) -> u8
    ensures accepted { result ≡ number Accepted → audited ≡ Ok Answer.Accepted }
    ensures refused { result ≡ number Refused → audited ≡ Ok Answer.Refused }
    ensures faulty { result ≡ number Faulty → (audited ≡ Ok Answer.Faulty) ⊎ (audited ≡ Err StreamFault.BadWorkers) }
{
    match audited {
        Ok(answer) => answer.status().number(),
        Err(StreamFault::Memory) => failed(errors, NO_MEMORY, Status::NoMemory),
        Err(StreamFault::BadWorkers) => failed(errors, b"failed: workers\n", Status::Faulty),
        Err(StreamFault::Held) => failed(errors, b"failed: held\n", Status::Failed),
        Err(StreamFault::ReadFailed) => failed(errors, b"failed: read\n", Status::Failed),
        Err(StreamFault::WriteFailed) => failed(errors, b"failed: write\n", Status::Failed),
    }
}

/// Audits the input by `workers` workers: accepted only where the bytes decode to one history, and it is causally
/// convergent. It prints what the audit says of the bytes, and makes nothing.
fn audit<R, I, T, W, E>(
    rt: &R,
    workers: u8,
    input: &mut Counted<I>,
    outputs: Outputs<T, W, E>,
) -> Ended<T, W, E>
where
    R: AllocGlobal + Threads + Wait + Sync,
    I: Read,
    W: Write,
    E: Write,
    ensures accepted { result.status ≡ number Accepted → IfSome (I.remaining (inner input.old)) (λ bytes. EncodesConvergent bytes
        × Writes bytes Answer.Accepted (W.contents (inner outputs.out)) (W.contents (inner result.outputs.out))) }
    ensures refused { result.status ≡ number Refused → IfSome (I.remaining (inner input.old)) (λ bytes.
        Writes bytes Answer.Refused (W.contents (inner outputs.out)) (W.contents (inner result.outputs.out))) }
    ensures faulty { result.status ≡ number Faulty → (1 ≤ workers) → (workers ≤ MAX_WORKERS) → IfSome (I.remaining (inner input.old)) (λ bytes.
        IsNoTraceText bytes × Writes bytes Answer.Faulty (W.contents (inner outputs.out)) (W.contents (inner result.outputs.out))) }
    ensures made { result.outputs.made ≡ outputs.made }
{
    let Outputs {
        made,
        mut out,
        mut errors,
    } = outputs;
    let audited = audit_stream(rt, rt.alloc(), input, &mut out, workers, &OpenGate);
    let status = audit_status(&mut errors, audited);
    Ended {
        status,
        outputs: Outputs { made, out, errors },
    }
}

/// Audits the input, which may be cut: accepted only where the bytes decode to one history, and it is causally
/// convergent, or where they are cut after records without a lasting fault.
fn so_far<I, T, W, E>(
    alloc: Global,
    input: &mut Counted<I>,
    outputs: Outputs<T, W, E>,
) -> Ended<T, W, E>
where
    I: Read,
    W: Write,
    E: Write,
    ensures accepted { result.status ≡ number Accepted → IfSome (I.remaining (inner input.old)) (λ bytes. IsSoundSoFar bytes
        × WritesSoFar bytes Answer.Accepted (W.contents (inner outputs.out)) (W.contents (inner result.outputs.out))) }
    ensures refused { result.status ≡ number Refused → IfSome (I.remaining (inner input.old)) (λ bytes.
        WritesSoFar bytes Answer.Refused (W.contents (inner outputs.out)) (W.contents (inner result.outputs.out))) }
    ensures faulty { result.status ≡ number Faulty → IfSome (I.remaining (inner input.old)) (λ bytes. HasOtherFault bytes
        × WritesSoFar bytes Answer.Faulty (W.contents (inner outputs.out)) (W.contents (inner result.outputs.out))) }
    ensures made { result.outputs.made ≡ outputs.made }
{
    let Outputs {
        made,
        mut out,
        mut errors,
    } = outputs;
    let audited = audit_so_far(alloc, input, &mut out);
    let status = audit_status(&mut errors, audited);
    Ended {
        status,
        outputs: Outputs { made, out, errors },
    }
}

/// Explains the faults of the input that are asked for, and draws the one of them, or the first, where a picture is
/// asked for. The status is that of an audit, unless the picture could not be written.
fn explain<I, T, W, E>(
    alloc: Global,
    request: Request,
    input: &mut Counted<I>,
    outputs: Outputs<T, W, E>,
) -> Ended<T, W, E>
where
    I: Read,
    T: Write + Output,
    W: Write,
    E: Write,
    ensures accepted { result.status ≡ number Accepted → IfSome (I.remaining (inner input.old)) (λ bytes. EncodesConvergent bytes × Explains request bytes Answer.Accepted
        (T.contents (inner outputs.made)) (T.contents (inner result.outputs.made)) (W.contents (inner outputs.out)) (W.contents (inner result.outputs.out))) }
    ensures refused { result.status ≡ number Refused → IfSome (I.remaining (inner input.old)) (λ bytes. Explains request bytes Answer.Refused
        (T.contents (inner outputs.made)) (T.contents (inner result.outputs.made)) (W.contents (inner outputs.out)) (W.contents (inner result.outputs.out))) }
    ensures faulty { result.status ≡ number Faulty → IfSome (I.remaining (inner input.old)) IsNoTraceText }
    ensures undrawn { result.status ≡ number Faulty → T.contents (inner result.outputs.made) ≡ T.contents (inner outputs.made) }
{
    let Outputs {
        mut made,
        mut out,
        mut errors,
    } = outputs;
    let explained = explain_stream(alloc, input, &mut out, request);
    let status = explained_status(explained, request.is_drawn, &mut made, &mut errors);
    Ended {
        status,
        outputs: Outputs { made, out, errors },
    }
}

/// The status of an explanation. The picture is written where one is asked for; for bytes that are no trace there is
/// none.
fn explained_status<T, E>(
    explained: Result<Explained, StreamFault>,
    is_drawn: bool,
    made: &mut Counted<T>,
    errors: &mut Counted<E>,
) -> u8
where
    T: Write + Output,
    E: Write,
    ensures accepted { result ≡ number Accepted → HasAnswered is_drawn Answer.Accepted explained (T.contents (inner made.old)) (T.contents (inner made.new)) }
    ensures refused { result ≡ number Refused → HasAnswered is_drawn Answer.Refused explained (T.contents (inner made.old)) (T.contents (inner made.new)) }
    ensures faulty { result ≡ number Faulty → IsFaultyAnswer explained × (T.contents (inner made.new) ≡ T.contents (inner made.old)) }
{
    match explained {
        Ok(explained) => answered_status(explained, is_drawn, made, errors),
        Err(fault) => audit_status(errors, Err(fault)),
    }
}

/// The status of an answer. The picture is written where one is asked for; where the input is faulty there is none.
fn answered_status<T, E>(
    explained: Explained,
    is_drawn: bool,
    made: &mut Counted<T>,
    errors: &mut Counted<E>,
) -> u8
where
    T: Write + Output,
    E: Write,
    ensures accepted { result ≡ number Accepted → (explained.answer ≡ Answer.Accepted) × Gains is_drawn explained.picture (T.contents (inner made.old)) (T.contents (inner made.new)) }
    ensures refused { result ≡ number Refused → (explained.answer ≡ Answer.Refused) × Gains is_drawn explained.picture (T.contents (inner made.old)) (T.contents (inner made.new)) }
    ensures faulty { result ≡ number Faulty → (explained.answer ≡ Answer.Faulty) × (T.contents (inner made.new) ≡ T.contents (inner made.old)) }
{
    let Explained { answer, picture } = explained;
    match (is_drawn, answer) {
        (true, Answer::Accepted) => drawn(Answer::Accepted, picture, made, errors),
        (true, Answer::Refused) => drawn(Answer::Refused, picture, made, errors),
        _ => answer.status().number(),
    }
}

/// Explains the faults of the lines of the input that are asked for, and draws the one of them, or the first, where a
/// picture is asked for. The status is that of an audit, unless the picture could not be written.
fn check<I, T, W, E>(
    alloc: Global,
    is_ranked: bool,
    request: Request,
    input: &mut Counted<I>,
    outputs: Outputs<T, W, E>,
) -> Ended<T, W, E>
where
    I: Read,
    T: Write + Output,
    W: Write,
    E: Write,
    ensures accepted { result.status ≡ number Accepted → IfSome (I.remaining (inner input.old)) (λ bytes. DescribesConvergent is_ranked bytes × Checks is_ranked request bytes Answer.Accepted
        (T.contents (inner outputs.made)) (T.contents (inner result.outputs.made)) (W.contents (inner outputs.out)) (W.contents (inner result.outputs.out))) }
    ensures refused { result.status ≡ number Refused → IfSome (I.remaining (inner input.old)) (λ bytes. Checks is_ranked request bytes Answer.Refused
        (T.contents (inner outputs.made)) (T.contents (inner result.outputs.made)) (W.contents (inner outputs.out)) (W.contents (inner result.outputs.out))) }
    ensures faulty { result.status ≡ number Faulty → IfSome (I.remaining (inner input.old)) (λ bytes. WritesChecked is_ranked request bytes Answer.Faulty
        (W.contents (inner outputs.out)) (W.contents (inner result.outputs.out)) × (T.contents (inner result.outputs.made) ≡ T.contents (inner outputs.made))) }
{
    let Outputs {
        mut made,
        mut out,
        mut errors,
    } = outputs;
    let checked = check_stream(alloc, input, &mut out, is_ranked, request);
    let status = checked_status(checked, request.is_drawn, &mut made, &mut errors);
    Ended {
        status,
        outputs: Outputs { made, out, errors },
    }
}

/// The status of a check, as that of an explanation. Where there is no answer, a line reports why.
fn checked_status<T, E>(
    checked: Result<Explained, CheckFault>,
    is_drawn: bool,
    made: &mut Counted<T>,
    errors: &mut Counted<E>,
) -> u8
where
    T: Write + Output,
    E: Write,
    ensures accepted { result ≡ number Accepted → HasAnswered is_drawn Answer.Accepted checked (T.contents (inner made.old)) (T.contents (inner made.new)) }
    ensures refused { result ≡ number Refused → HasAnswered is_drawn Answer.Refused checked (T.contents (inner made.old)) (T.contents (inner made.new)) }
    ensures faulty { result ≡ number Faulty → IsOkAnd checked (λ explained. explained.answer ≡ Answer.Faulty) × (T.contents (inner made.new) ≡ T.contents (inner made.old)) }
{
    match checked {
        Ok(explained) => answered_status(explained, is_drawn, made, errors),
        Err(CheckFault::Memory) => failed(errors, NO_MEMORY, Status::NoMemory),
        Err(CheckFault::ReadFailed) => failed(errors, b"failed: read\n", Status::Failed),
        Err(CheckFault::WriteFailed) => failed(errors, b"failed: write\n", Status::Failed),
        Err(CheckFault::Changed) => failed(errors, b"failed: changed\n", Status::Failed),
    }
}

/// Writes the picture, or says that there is none and leaves the file empty, and returns the status of the answer.
fn drawn<T, E>(
    answer: Answer,
    picture: Option<Vec<u8>>,
    made: &mut Counted<T>,
    errors: &mut Counted<E>,
) -> u8
where
    T: Write + Output,
    E: Write,
    ensures { (result ≡ number Failed) ⊎ ((result ≡ number (answer_status answer)) × Appends (T.contents (inner made.old)) (T.contents (inner made.new)) (drawn_text picture)) }
{
    let is_written = match picture {
        Some(picture) => write_text(made, &picture).is_ok(),
        None => {
            let _ = write_text(errors, NOT_DRAWN);
            true
        }
    };
    if !is_written || made.flush().is_err() {
        return failed(errors, made.get_ref().failure(), Status::Failed);
    }
    answer.status().number()
}

/// Shows the input: accepted only for a trace's text. It prints the lines of its frames, and of its fault.
fn show<I, T, W, E>(
    alloc: Global,
    input: &mut Counted<I>,
    outputs: Outputs<T, W, E>,
) -> Ended<T, W, E>
where
    I: Read,
    W: Write,
    E: Write,
    ensures shown { result.status ≡ number Accepted → IfSome (I.remaining (inner input.old)) (λ bytes. IsTraceText bytes
        × Shows bytes (number Accepted) (W.contents (inner outputs.out)) (W.contents (inner result.outputs.out))) }
    ensures refused { result.status ≡ number Refused → IfSome (I.remaining (inner input.old)) (λ _. ⊥) }
    ensures faulty { result.status ≡ number Faulty → IfSome (I.remaining (inner input.old)) (λ bytes. IsNoTraceText bytes
        × Shows bytes (number Faulty) (W.contents (inner outputs.out)) (W.contents (inner result.outputs.out))) }
    ensures made { result.outputs.made ≡ outputs.made }
{
    let Outputs {
        made,
        mut out,
        mut errors,
    } = outputs;
    let shown = show_stream(alloc, input, &mut out, &mut errors);
    let status = status_of(&mut errors, shown);
    Ended {
        status,
        outputs: Outputs { made, out, errors },
    }
}

/// Imports the lines of the input, read by these rules, of which this is expected: accepted only for lines that decode to
/// a trace, whose text was written before it was flushed.
#[tactic(auto, using(crate::proofs::Kept::imported))]
fn import<I, T, W, E>(
    alloc: Global,
    rules: Rules,
    expected: Expected,
    input: &mut Counted<I>,
    outputs: Outputs<T, W, E>,
) -> Ended<T, W, E>
where
    I: Read,
    T: Write + Output + Drop,
    W: Write,
    E: Write,
    ensures imported { result.status ≡ number Accepted → IfSome (I.remaining (inner input.old)) (λ bytes. Imports rules bytes
        (T.contents (inner outputs.made)) (T.contents (inner result.outputs.made)) (W.contents (inner outputs.out)) (W.contents (inner result.outputs.out))) }
    ensures refused { result.status ≢ number Refused }
    ensures faulty { result.status ≡ number Faulty → IfSome (I.remaining (inner input.old)) (λ bytes. StopsAtLine rules bytes
        (T.contents (inner outputs.made)) (T.contents (inner result.outputs.made)) (W.contents (inner outputs.out)) (W.contents (inner result.outputs.out))) }
{
    let Outputs {
        made,
        mut out,
        mut errors,
    } = outputs;
    let (status, made) = match import_stream(alloc, rules, expected, input, made) {
        Ok(imported) => reported(alloc, imported, &mut out, &mut errors),
        Err(unimported) => {
            let Unimported { fault, writer } = unimported;
            let why = writer.get_ref().failure();
            let status = not_imported(alloc, fault, why, &mut out, &mut errors);
            (status, writer)
        }
    };
    Ended {
        status,
        outputs: Outputs { made, out, errors },
    }
}

/// Prints what was imported, after its trace is flushed, and returns the status and the trace's writer. The text is
/// built first: where memory runs out nothing is flushed.
fn reported<T, W, E>(
    alloc: Global,
    imported: Imported<T>,
    out: &mut Counted<W>,
    errors: &mut Counted<E>,
) -> (u8, Counted<T>)
where
    T: Write + Output + Drop,
    W: Write,
    E: Write,
    ensures reported { result.0 ≡ number Accepted → Keeps (T.contents (inner imported.writer)) (T.contents (inner result.1))
        × Appends (W.contents (inner out.old)) (W.contents (inner out.new)) (reported_text imported.names imported.unknown.items imported.operations) }
    ensures other { (result.0 ≢ number Refused) × (result.0 ≢ number Faulty) }
{
    let text = imported.reported(alloc);
    let Imported { mut writer, .. } = imported;
    let Ok(text) = text else {
        return (failed(errors, NO_MEMORY, Status::NoMemory), writer);
    };
    if writer.flush().is_err() {
        let status = failed(errors, writer.get_ref().failure(), Status::Failed);
        return (status, writer);
    }
    let status = print(text.as_bytes(), Status::Accepted, out, errors);
    (status, writer)
}

/// Prints why nothing was imported, and returns the status: faulty only for a line that is wrong. Where a write failed,
/// it prints the line that says why.
pub fn not_imported<W, E>(
    alloc: Global,
    fault: ImportFault,
    why: &[u8],
    out: &mut Counted<W>,
    errors: &mut Counted<E>,
) -> u8
where
    W: Write,
    E: Write,
    ensures status { (result ≢ number Accepted) × (result ≢ number Refused) }
    ensures faulty { result ≡ number Faulty → PrintsLine fault (W.contents (inner out.old)) (W.contents (inner out.new)) }
{
    match fault {
        ImportFault::Memory => failed(errors, NO_MEMORY, Status::NoMemory),
        ImportFault::ReadFailed => failed(errors, b"failed: read\n", Status::Failed),
        ImportFault::WriteFailed { .. } => failed(errors, why, Status::Failed),
        ImportFault::Line { number, fault } => faulty(alloc, number, fault, out, errors),
        ImportFault::Changed => failed(errors, b"failed: changed\n", Status::Failed),
        ImportFault::Endless => failed(errors, b"failed: endless\n", Status::Failed),
    }
}

/// Prints the report of a line that is wrong, and returns the status.
fn faulty<W, E>(
    alloc: Global,
    number: u64,
    fault: JsonLineFault,
    out: &mut Counted<W>,
    errors: &mut Counted<E>,
) -> u8
where
    W: Write,
    E: Write,
    ensures status { (result ≢ status_number Accepted) × (result ≢ status_number Refused) }
    ensures printed { result ≡ status_number Faulty → Appends (W.contents (inner out.old)) (W.contents (inner out.new)) (faulty_text number fault) }
{
    match faulty_line(alloc, number, fault) {
        Ok(line) => print(line.as_bytes(), Status::Faulty, out, errors),
        Err(_) => failed(errors, NO_MEMORY, Status::NoMemory),
    }
}

/// Converts the input to a trace of format 2: accepted only for a trace's text, where the text of the new trace was
/// written, and how many operations it has was printed.
fn convert<I, T, W, E>(
    alloc: Global,
    input: &mut Counted<I>,
    outputs: Outputs<T, W, E>,
) -> Ended<T, W, E>
where
    I: Read,
    T: Write,
    W: Write,
    E: Write,
    ensures converted { result.status ≡ number Accepted → IfSome (I.remaining (inner input.old)) (λ bytes. HasConverted bytes
        (T.contents (inner outputs.made)) (T.contents (inner result.outputs.made)) (W.contents (inner outputs.out)) (W.contents (inner result.outputs.out))) }
    ensures refused { result.status ≢ number Refused }
    ensures faulty { result.status ≡ number Faulty → IfSome (I.remaining (inner input.old)) (λ bytes. IsUnconverted bytes
        (T.contents (inner outputs.made)) (T.contents (inner result.outputs.made)) (W.contents (inner outputs.out)) (W.contents (inner result.outputs.out))) }
{
    let Outputs {
        mut made,
        mut out,
        mut errors,
    } = outputs;
    let converted = convert_stream(alloc, input, &mut made);
    let status = converted_status(alloc, converted, &mut out, &mut errors);
    Ended {
        status,
        outputs: Outputs { made, out, errors },
    }
}

/// Prints how many operations were converted, or the line of the fault, and returns the status.
fn converted_status<W, E>(
    alloc: Global,
    converted: Result<u32, ConvertFault>,
    out: &mut Counted<W>,
    errors: &mut Counted<E>,
) -> u8
where
    W: Write,
    E: Write,
    ensures accepted { result ≡ number Accepted → (count : ℕ) × (converted ≡ Ok count) × Appends (W.contents (inner out.old)) (W.contents (inner out.new)) (converted_text count) }
    ensures refused { result ≢ number Refused }
    ensures faulty { result ≡ number Faulty → (e : AFault) × (converted ≡ Err (ConvertFault.Faulty e)) × Appends (W.contents (inner out.old)) (W.contents (inner out.new)) (fault_text e) }
{
    match converted {
        Ok(count) => counted(alloc, count, out, errors),
        Err(ConvertFault::Memory) => failed(errors, NO_MEMORY, Status::NoMemory),
        Err(ConvertFault::Faulty(fault)) => no_trace(alloc, fault, out, errors),
        Err(ConvertFault::ReadFailed) => failed(errors, b"failed: read\n", Status::Failed),
        Err(ConvertFault::WriteFailed { .. }) => failed(errors, b"failed: write\n", Status::Failed),
    }
}

/// Prints how many operations were converted, and returns the status.
fn counted<W, E>(alloc: Global, count: u32, out: &mut Counted<W>, errors: &mut Counted<E>) -> u8
where
    W: Write,
    E: Write,
    ensures other { (result ≢ number Refused) × (result ≢ number Faulty) }
    ensures printed { result ≡ number Accepted → Appends (W.contents (inner out.old)) (W.contents (inner out.new)) (converted_text count) }
{
    match converted_line(alloc, count) {
        Ok(line) => print(line.as_bytes(), Status::Accepted, out, errors),
        Err(_) => failed(errors, NO_MEMORY, Status::NoMemory),
    }
}

/// Prints the line of bytes that are no trace, and returns the status.
fn no_trace<W, E>(
    alloc: Global,
    fault: TraceFault,
    out: &mut Counted<W>,
    errors: &mut Counted<E>,
) -> u8
where
    W: Write,
    E: Write,
    ensures other { (result ≢ number Accepted) × (result ≢ number Refused) }
    ensures printed { result ≡ number Faulty → Appends (W.contents (inner out.old)) (W.contents (inner out.new)) (fault_text fault) }
{
    let mut line = Vec::new(alloc);
    match fault_line(alloc, &fault, &mut line) {
        Ok(()) => print(&line, Status::Faulty, out, errors),
        Err(Memory) => failed(errors, NO_MEMORY, Status::NoMemory),
    }
}

/// Runs the scenario in the input: accepted only for a scenario with a run whose history is accepted, where the trace
/// of the run was written, and its outcome was printed.
fn run_scenario<R, I, T, W, E>(
    rt: &R,
    input: &mut Counted<I>,
    outputs: Outputs<T, W, E>,
) -> Ended<T, W, E>
where
    R: AllocGlobal + Threads + Wait + Sync,
    I: Read,
    T: Write + Send + Drop,
    W: Write,
    E: Write,
    ensures ran { result.status ≡ number Accepted → IfSome (I.remaining (inner input.old)) (λ bytes. HasRun bytes
        (T.contents (inner outputs.made)) (T.contents (inner result.outputs.made)) (W.contents (inner outputs.out)) (W.contents (inner result.outputs.out))) }
    ensures refused { result.status ≡ number Refused → IfSome (I.remaining (inner input.old)) (λ _. ⊥) }
    ensures faulty { result.status ≡ number Faulty → IfSome (I.remaining (inner input.old)) (λ bytes. IsNoScenario bytes
        × Keeps (T.contents (inner outputs.made)) (T.contents (inner result.outputs.made))) }
{
    let Outputs {
        made,
        mut out,
        mut errors,
    } = outputs;
    let alloc = rt.alloc();
    let streamed = run_stream(rt, alloc, input, made, &mut out, &mut errors, &OpenGate);
    let Streamed {
        status,
        trace: made,
    } = streamed;
    let status = status_of(&mut errors, status);
    Ended {
        status,
        outputs: Outputs { made, out, errors },
    }
}

/// Judges the lines of the input while they are written, and prints the state of their history when it changes. It makes
/// nothing.
fn follow<R, I, T, W, E>(
    rt: &R,
    is_ranked: bool,
    input: &mut Counted<I>,
    outputs: Outputs<T, W, E>,
) -> Ended<T, W, E>
where
    R: AllocGlobal + Threads + Wait + Sync + Clock,
    I: Read + Send,
    W: Write + Drop,
    E: Write + Drop,
    ensures made { result.outputs.made ≡ outputs.made }
{
    let Outputs { made, out, errors } = outputs;
    let followed = follow_stream(rt, is_ranked, &mut *input, out, errors);
    let Followed {
        status,
        out,
        mut errors,
    } = followed;
    let status = status_of(&mut errors, status);
    Ended {
        status,
        outputs: Outputs { made, out, errors },
    }
}

/// Serves sessions of clients of the cluster of the scenario in the input, as the door says, and writes the trace of what
/// they saw if it is kept. The status is accepted only for a scenario with a report on this number of sessions, whose
/// history is accepted, and which was printed.
fn serve<R, I, T, W, E>(
    rt: &R,
    door: Door,
    input: &mut Counted<I>,
    outputs: Outputs<T, W, E>,
) -> Ended<T, W, E>
where
    R: Net<Listener = TcpListener, Stream = TcpStream> + AllocGlobal + Wait,
    I: Read,
    T: Write,
    W: Write,
    E: Write,
    ensures served { result.status ≡ number Accepted → IfSome (I.remaining (inner input.old)) (λ bytes.
        HasServed door.sessions bytes (W.contents (inner outputs.out)) (W.contents (inner result.outputs.out))) }
    ensures refused { result.status ≡ number Refused → IfSome (I.remaining (inner input.old)) (λ _. ⊥) }
    ensures faulty { result.status ≡ number Faulty → IfSome (I.remaining (inner input.old)) IsNoScenario }
    ensures unwritten { result.status ≡ number Faulty → result.outputs.made ≡ outputs.made }
    ensures unkept { door.keeps_trace ≡ false → result.outputs.made ≡ outputs.made }
    ensures traced { door.keeps_trace ≡ true → result.status ≡ number Accepted → IfSome (I.remaining (inner input.old)) (λ bytes. EndsTraced bytes door.sessions
        (T.contents (inner outputs.made)) (T.contents (inner result.outputs.made)) (W.contents (inner outputs.out)) (W.contents (inner result.outputs.out))) }
{
    let Outputs {
        mut made,
        mut out,
        mut errors,
    } = outputs;
    let served = serve_stream(
        rt,
        rt.alloc(),
        input,
        door,
        &mut made,
        &mut out,
        &mut errors,
    );
    let status = status_of(&mut errors, served);
    Ended {
        status,
        outputs: Outputs { made, out, errors },
    }
}
