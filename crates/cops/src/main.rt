//! The program `cops`: it reads the words of the command line, opens what they name, inputs before outputs, runs the
//! command over it, and ends with the command's status: 0 accepted, 1 refused, 2 faulty input or usage, 3 out of
//! memory, 4 a device's fault.
#![tactic(auto)]

ghost use Rattle.std.specs.Prelude.{◌≡◌, IfOk};
ghost use Rattle.cops_import.specs.Line.{AreRead};
ghost use Rattle.cops_command.specs.Status.{number};

mod command;
mod input;
mod lines;
mod output;
mod progress;

use crate::command::{Ended, Outputs, command};
use crate::input::{Growing, Source, is_plain, plain_output};
use crate::lines::{NoLines, copied, created, rewound};
use crate::output::{DraftFile, MadeFile, Printed, RecreatedFile};
use crate::progress::{Cleared, Reading, Watched, begun, remove};
use cops_command::Status;
use cops_command_line::{Job, line};
use cops_import::{Expected, ImportFault, Surveyed, Versions, survey, survey_outcomes};
use cops_outcomes::Writes;
use cops_types::Counted;
use std::alloc::AllocError;
use std::fs::File;
use std::io::{BufWriter, ErrorKind, IsTerminal, Read, Write};
use std::net::{Net, TcpListener, TcpStream};
use std::process::ExitCode;
use std::rt::{Env, Files};
use std::sync::Wait;
use std::thread::Threads;
use std::time::{Clock, Instant};
use std::{env, fs, io, process};

/// The message where a command would write to the file that it reads.
const SAME_FILE: &str = "same file";

/// The message for an input that is no trace and begins like JSON Lines.
const LOOKS_LIKE_LINES: &str = "this looks like JSON Lines, which `cops import` reads";

/// The message where there are no words and standard input is a terminal.
const WAITS: &str = "waiting for a trace on standard input";

/// Prints why the program failed, and returns the status.
fn failed<R: Eprint>(rt: &R, why: &str, status: Status) -> u8
    ensures { result ≡ number status }
{
    let _ = eprintln!(rt; "failed: {why}");
    status.number()
}

/// Where a job writes the trace or the picture that it makes, as it was opened: nowhere, standard output, or a file
/// with its name.
#[derive(Drop)]
enum Target<'a> {
    Nothing,
    Standard,
    File(&'a str, RecreatedFile),
}

impl<'a> Target<'a> {
    /// Opens the target: `Nothing` for no name, and standard output for `-`.
    fn open<R: Files<File = File>>(rt: &R, name: Option<&'a str>) -> io::Result<Target<'a>> {
        match name {
            None => Ok(Target::Nothing),
            Some("-") => Ok(Target::Standard),
            Some(name) => {
                let file = RecreatedFile::open(rt, name)?;
                Ok(Target::File(name, file))
            }
        }
    }
}

/// Removes the file with this name, if it was created and nothing was written to it.
fn close<R: Files>(rt: &R, name: &str, file: RecreatedFile) {
    if file.is_idle() {
        let _ = fs::remove_file(rt, name);
    }
}

/// Drops a target to which nothing was written.
fn give_up<R: Files>(rt: &R, target: Target<'_>) {
    if let Target::File(name, file) = target {
        close(rt, name, file);
    }
}

/// Drops the writer of what a job made.
fn close_made<R: Files + Print>(rt: &R, name: Option<&str>, made: MadeFile<'_, R>) {
    match (name, made) {
        (Some(name), MadeFile::File(file)) => close(rt, name, file),
        (Some(name), MadeFile::DraftFile(draft)) => close(rt, name, draft.into_output()),
        _ => {}
    }
}

/// The name of the job's input.
fn input_of<'a>(job: Job<'a>) -> &'a str {
    match job {
        Job::Audit { trace, .. } => trace,
        Job::SoFar { trace } => trace,
        Job::Explain { trace, .. } => trace,
        Job::Check { lines, .. } => lines,
        Job::Follow { lines, .. } => lines,
        Job::Show { trace } => trace,
        Job::Import { lines, .. } => lines,
        Job::Convert { trace, .. } => trace,
        Job::Run { scenario, .. } => scenario,
        Job::Serve { scenario, .. } => scenario,
    }
}

/// The name of what the job makes, if it makes something.
fn output_of<'a>(job: Job<'a>) -> Option<&'a str> {
    match job {
        Job::Explain { wanted, .. } => wanted.picture,
        Job::Check { wanted, .. } => wanted.picture,
        Job::Import { trace, .. } => Some(trace),
        Job::Convert { new, .. } => Some(new),
        Job::Run { trace, .. } => Some(trace),
        Job::Serve { trace, .. } => trace,
        _ => None,
    }
}

/// Whether standard output or the target is the file that is read: writing to it would destroy its content.
fn is_over_input<R, S>(rt: &R, source: &Source<S>, target: &Target<'_>) -> bool
where
    R: Files,
    S: Read,
{
    let Some(input) = source.plain(rt) else {
        return false;
    };
    let made = match target {
        Target::File(_, file) => file.plain(),
        _ => None,
    };
    made == Some(input) || plain_output(rt) == Some(input)
}

/// The writers of a command. What it prints goes to standard error where what it makes goes to standard output.
fn outputs<'r, R, E>(
    rt: &'r R,
    made: MadeFile<'r, R>,
    errors: E,
    begun: Option<Instant>,
) -> Outputs<MadeFile<'r, R>, Cleared<'r, R, Printed<'r, R, E>>, Cleared<'r, R, E>>
where
    R: Print + Eprint + Clock,
    E: Write + Copy + Drop,
{
    let printed = match made {
        MadeFile::Standard(_) | MadeFile::Gathered(_) => Printed::Errors(errors),
        _ => Printed::Output(io::writer(rt)),
    };
    Outputs {
        made: Counted::new(made),
        out: Counted::new(Cleared::new(rt, printed, begun)),
        errors: Counted::new(Cleared::new(rt, errors, begun)),
    }
}

/// Opens what the job names, and runs the job.
fn perform<R, S, E>(rt: &R, job: Job<'_>, errors: E, process: u32) -> u8
where
    R: Files<File = File> + Input<Reader = S> + Print + Eprint + AllocGlobal + Env,
    R: Threads + Wait + Sync + Clock,
    R: Net<Listener = TcpListener, Stream = TcpStream>,
    S: Read + Send + Drop,
    E: Write + IsTerminal + Copy + Drop,
{
    let Ok(source) = Source::open(rt, input_of(job)) else {
        return failed(rt, "open", Status::Failed);
    };
    let Ok(target) = Target::open(rt, output_of(job)) else {
        return failed(rt, "open", Status::Failed);
    };
    if is_over_input(rt, &source, &target) {
        give_up(rt, target);
        return failed(rt, SAME_FILE, Status::Failed);
    }
    if let Job::Import { is_ranked, .. } = job {
        return perform_import(rt, (job, is_ranked), source, target, (errors, process));
    }
    if let Job::Follow { .. } = job {
        return perform_follow(rt, job, source, errors);
    }
    match made_at_once(rt, job, target) {
        Ok(made) => perform_over(rt, job, source, made, errors),
        Err(_) => failed(rt, "open", Status::Failed),
    }
}

/// The writer for what a job that is no import makes. The file of a run is emptied before its scenario is read; that of
/// a picture keeps its content until there is something to replace it.
fn made_at_once<'r, R>(rt: &'r R, job: Job<'_>, target: Target<'_>) -> io::Result<MadeFile<'r, R>>
where
    R: Print,
{
    match target {
        Target::Nothing => Ok(MadeFile::Nothing),
        Target::Standard => Ok(MadeFile::Standard(io::writer(rt))),
        Target::File(_, mut file) => {
            if let Job::Run { .. } = job {
                file.begin()?;
            }
            Ok(MadeFile::File(file))
        }
    }
}

/// Runs a job that is no import.
fn perform_over<R, S, E>(
    rt: &R,
    job: Job<'_>,
    source: Source<S>,
    made: MadeFile<'_, R>,
    errors: E,
) -> u8
where
    R: Files<File = File> + Print + Eprint + AllocGlobal,
    R: Threads + Wait + Sync + Clock,
    R: Net<Listener = TcpListener, Stream = TcpStream>,
    S: Read + Send + Drop,
    E: Write + IsTerminal + Copy + Drop,
{
    let is_read_whole = matches!(
        job,
        Job::Audit { .. } | Job::SoFar { .. } | Job::Explain { .. } | Job::Convert { .. }
    );
    let is_check = matches!(job, Job::Check { .. });
    let reading = if is_check {
        Reading::Lines("reading")
    } else {
        Reading::Trace
    };
    let begun = begun(rt, (is_read_whole || is_check) && errors.is_terminal());
    let mut input = Counted::new(Watched::new(rt, source, reading, begun));
    let outputs = outputs(rt, made, errors, begun);
    let Ended { status, outputs } = command(rt, job, unsurveyed(rt), &mut input, outputs);
    let Outputs { made, .. } = outputs;
    close_made(rt, output_of(job), made.into_inner());
    let reads_trace = is_read_whole || matches!(job, Job::Show { .. });
    if reads_trace && input.get_ref().looks_like_lines() {
        let _ = eprintln!(rt; "{LOOKS_LIKE_LINES}");
    }
    status
}

/// Runs a check of lines that are still being written.
fn perform_follow<R, S, E>(rt: &R, job: Job<'_>, source: Source<S>, errors: E) -> u8
where
    R: Print + Eprint + AllocGlobal,
    R: Threads + Wait + Sync + Clock,
    R: Net<Listener = TcpListener, Stream = TcpStream>,
    S: Read + Send + Drop,
    E: Write + Copy + Drop,
{
    let mut input = Counted::new(Growing::new(source));
    let outputs = outputs(rt, MadeFile::Nothing, errors, None);
    let Ended { status, .. } = command(rt, job, unsurveyed(rt), &mut input, outputs);
    status
}

/// What is known of an input of which no lines were surveyed.
fn unsurveyed<R: AllocGlobal>(rt: &R) -> Surveyed {
    Surveyed {
        expected: Expected {
            clients: 0,
            unknown: Writes::new(rt.alloc()),
        },
        versions: Versions::Plain,
    }
}

/// Runs an import, with versions by their ranks or as they stand. Its lines are read first to survey them.
fn perform_import<R, S, E>(
    rt: &R,
    wanted: (Job<'_>, bool),
    source: Source<S>,
    target: Target<'_>,
    given: (E, u32),
) -> u8
where
    R: Files<File = File> + Print + Eprint + AllocGlobal + Env,
    R: Threads + Wait + Sync + Clock,
    R: Net<Listener = TcpListener, Stream = TcpStream>,
    S: Read + Send + Drop,
    E: Write + IsTerminal + Copy + Drop,
{
    let (job, is_ranked) = wanted;
    let (errors, process) = given;
    let begun = begun(rt, errors.is_terminal());
    let found = match surveyed_lines(rt, source, is_ranked, (begun, process)) {
        Ok((surveyed, file)) => match drafted(rt, target, process) {
            Ok(made) => Ok((surveyed, file, made)),
            Err(why) => Err(why),
        },
        Err(why) => {
            give_up(rt, target);
            Err(why)
        }
    };
    let (surveyed, file, made) = match found {
        Ok(found) => found,
        Err(why) => {
            remove(rt, begun);
            return failed(rt, why.word(), why.status());
        }
    };
    let mut input = Counted::new(Watched::new(rt, file, Reading::Lines("importing"), begun));
    let outputs = outputs(rt, made, errors, begun);
    let Ended { status, outputs } = command(rt, job, surveyed, &mut input, outputs);
    let Outputs { made, .. } = outputs;
    close_made(rt, output_of(job), made.into_inner());
    status
}

/// What a survey of the lines finds, and the lines as a file that is at its beginning again. If there are puts of unknown
/// outcome, the lines are read once more for these.
fn surveyed_lines<R, S>(
    rt: &R,
    source: Source<S>,
    is_ranked: bool,
    given: (Option<Instant>, u32),
) -> Result<(Surveyed, File), NoLines>
where
    R: Files<File = File> + Eprint + AllocGlobal + Env + Clock,
    S: Read + Drop,
    ensures { IfOk result (λ found. AreRead is_ranked found.0.versions) }
{
    let (begun, process) = given;
    let file = match source {
        Source::File(file) if is_plain(&file) => file,
        source => {
            let mut source = Watched::new(rt, source, Reading::Lines("copying"), begun);
            copied(rt, &mut source, process)?
        }
    };
    let mut file = Counted::new(Watched::new(rt, file, Reading::Lines("counting"), begun));
    let surveyed = match survey(rt.alloc(), is_ranked, &mut file) {
        Ok(surveyed) => surveyed,
        Err(fault) => return Err(not_surveyed(fault)),
    };
    let file = rewound(file.into_inner().into_inner())?;
    if surveyed.expected.unknown.is_empty() {
        return Ok((surveyed, file));
    }
    let mut file = Counted::new(Watched::new(rt, file, Reading::Lines("counting"), begun));
    let surveyed = match survey_outcomes(rt.alloc(), surveyed, &mut file) {
        Ok(surveyed) => surveyed,
        Err(fault) => return Err(not_surveyed(fault)),
    };
    let file = rewound(file.into_inner().into_inner())?;
    Ok((surveyed, file))
}

/// Why there are no lines, if they were not surveyed.
fn not_surveyed(fault: ImportFault) -> NoLines {
    match fault {
        ImportFault::Memory => NoLines::Memory,
        ImportFault::Endless => NoLines::Endless,
        _ => NoLines::Read,
    }
}

/// The writer for the trace of an import. A file gets the trace only when it is whole.
fn drafted<'r, R>(rt: &'r R, target: Target<'_>, process: u32) -> Result<MadeFile<'r, R>, NoLines>
where
    R: Files<File = File> + Print + AllocGlobal + Env,
{
    match target {
        Target::Nothing => Ok(MadeFile::Nothing),
        Target::Standard => match BufWriter::new(rt.alloc(), io::writer(rt)) {
            Ok(writer) => Ok(MadeFile::Gathered(writer)),
            Err(_) => Err(NoLines::Memory),
        },
        Target::File(name, file) => match waiting(rt, process) {
            Ok(waiting) => Ok(MadeFile::DraftFile(DraftFile::new(waiting, file))),
            Err(why) => {
                close(rt, name, file);
                Err(why)
            }
        },
    }
}

/// An empty file without a name, for a draft.
fn waiting<R>(rt: &R, process: u32) -> Result<BufWriter<File>, NoLines>
where
    R: Files<File = File> + AllocGlobal + Env,
{
    let file = created(rt, process)?;
    match BufWriter::new(rt.alloc(), file) {
        Ok(writer) => Ok(writer),
        Err(_) => Err(NoLines::Memory),
    }
}

/// Prints the help, the version or the usage, and returns the status.
fn no_job<R: Print + Eprint>(rt: &R, fault: cops_command_line::LineFault) -> u8 {
    match fault {
        cops_command_line::LineFault::Help(text) | cops_command_line::LineFault::Version(text) => {
            let _ = print!(rt; "{text}");
            Status::Accepted.number()
        }
        cops_command_line::LineFault::Usage(text) => {
            let _ = eprint!(rt; "{text}");
            Status::Faulty.number()
        }
        cops_command_line::LineFault::Memory => failed(rt, "memory", Status::NoMemory),
    }
}

/// Runs what the words after the program's name ask for. `is_terminal` says whether standard input is a terminal.
fn run<R, S, E>(
    rt: &R,
    arguments: &[String],
    is_terminal: bool,
    errors: E,
    process: u32,
) -> Result<u8, AllocError>
where
    R: Files<File = File> + Input<Reader = S> + Print + Eprint + AllocGlobal + Env,
    R: Threads + Wait + Sync + Clock,
    R: Net<Listener = TcpListener, Stream = TcpStream>,
    S: Read + Send + Drop,
    E: Write + IsTerminal + Copy + Drop,
{
    let words: Vec<&str> = arguments
        .iter()
        .skip(1)
        .map(|word| word.as_str())
        .collect(rt.alloc())?;
    if words.is_empty() && is_terminal {
        let _ = eprintln!(rt; "{WAITS}");
    }
    Ok(match line(rt.alloc(), words.as_slice()) {
        Ok(job) => perform(rt, job, errors, process),
        Err(fault) => no_job(rt, fault),
    })
}

fn arguments<R: Env + AllocGlobal>(rt: &R) -> io::Result<Vec<String>> {
    let words: Vec<String> = env::args(rt)?.collect(rt.alloc())?;
    Ok(words)
}

/// Reports why there are no words, and returns the status.
fn no_words<R: Eprint>(rt: &R, fault: io::Error) -> u8 {
    if fault.kind() == ErrorKind::InvalidData {
        let why = "error: invalid UTF-8 was detected in one or more arguments";
        let _ = eprintln!(rt; "{why}\n\nFor more information, try '--help'.");
        Status::Faulty.number()
    } else {
        failed(rt, "memory", Status::NoMemory)
    }
}

fn main(rt: HostRuntime) -> ExitCode {
    let process = process::id(rt.process());
    let status = match arguments(&rt) {
        Ok(words) => {
            let is_terminal = rt.stdin().is_terminal();
            match run(&rt, words.as_slice(), is_terminal, rt.stderr(), process) {
                Ok(status) => status,
                Err(_) => failed(&rt, "memory", Status::NoMemory),
            }
        }
        Err(fault) => no_words(&rt, fault),
    };
    ExitCode::from(status)
}
