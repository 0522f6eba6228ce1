ghost use Rattle.std.specs.Prelude.{◌≡◌, [], IsOk, IfOk, IfErr, map};
ghost use Rattle.clap.specs.Words.{kind_of};
ghost use Rattle.clap.specs.declared.error.kind.ErrorKind.TheVariants.{ArgumentConflict};
ghost use Rattle.cops_command_line.specs.Line.{Requests, Explains, Reports};

use crate::command::cops_command;
use crate::fault::LineFault;
use crate::job::Job;
use crate::jobs::job_in;
use crate::texts::{ALL_CONFLICT, CHECK_ALL_CONFLICT, FOLLOW_CONFLICT, SO_FAR_CONFLICT};
use crate::values::is_given;
use clap::error::ErrorKind;
use clap::{ArgMatches, Error};
use std::alloc::Global;

/// The fault for an error of the parser, with its text.
fn as_fault(alloc: Global, error: &Error) -> LineFault
    ensures { Reports (kind_of error.now) result }
{
    let kind = error.kind();
    if kind == ErrorKind::OutOfMemory {
        return LineFault::Memory;
    }
    match error.to_string(alloc) {
        Ok(text) if kind == ErrorKind::DisplayHelp => LineFault::Help(text),
        Ok(text) if kind == ErrorKind::DisplayVersion => LineFault::Version(text),
        Ok(text) => LineFault::Usage(text),
        Err(_) => LineFault::Memory,
    }
}

/// The fault for words that the command takes, though they are no job: those of `explain` and `check` with both `--all`
/// and `--fault`, those of `check` with `--follow` and an option of an explanation, and those of `audit` with both
/// `--so-far` and `--workers`. No other words are without a job, though that is not proved, as no clause says that a
/// required argument has a value.
fn no_job(alloc: Global, matches: &ArgMatches<'_>) -> LineFault
    ensures { Reports ArgumentConflict result }
{
    let text = match matches.subcommand() {
        Some(("explain", _)) => ALL_CONFLICT,
        Some(("check", inner)) if is_given(inner, "follow") => FOLLOW_CONFLICT,
        Some(("check", _)) => CHECK_ALL_CONFLICT,
        _ => SO_FAR_CONFLICT,
    };
    match String::from_str(alloc, text) {
        Ok(text) => LineFault::Usage(text),
        Err(_) => LineFault::Memory,
    }
}

/// The job that the words after the program's name ask for:
///
/// - `audit TRACE`, with `--workers N` or without it, which means 1, or with `--so-far`;
/// - `explain TRACE` and `check LINES`, with `--all` or `--fault N` or neither, which means the first 20, and with
///   `--picture FILE` and `--json` or without them; `check` also with `--rank`;
/// - `check LINES --follow`, with `--rank` or without it, and with none of the others;
/// - `show TRACE`; `convert TRACE NEW`; `run SCENARIO TRACE`;
/// - `import LINES TRACE`, with `--format N`, 1 or 2, or without it, which means 1, and with `--rank` or without it;
/// - `serve PORT SCENARIO`, with `--sessions N` or without it, which means 1, and with `--idle SECONDS`, `--trace FILE`
///   and `--announce` or without them;
/// - no words, which means `audit -`.
///
/// The errors: `Usage` where the words are no job, such as `audit` with both `--workers` and `--so-far` and `explain`
/// with both `--all` and `--fault`; `Help` where they ask for help, by `--help`, `-h` or `help`; `Version` where they
/// ask for the version, by `--version` or `-V`; `Memory` where there are words and memory runs out. The first three
/// have `clap`'s text, except for those of both options, whose text has the form of `clap`'s.
///
/// Words that are a job never return `Usage`, `Help` or `Version`, and words that only ask for the help or the version
/// do not return `Usage`.
pub fn line<'a>(alloc: Global, words: &'a [&'a str]) -> Result<Job<'a>, LineFault>
    ensures job { IfOk result (Requests (map (λ s. s.now) words.entry.now)) }
    ensures fault { IfErr result (Explains (map (λ s. s.now) words.entry.now)) }
    ensures none { words.entry.now ≡ [] → IsOk result }
{
    if words.is_empty() {
        return Ok(Job::Audit {
            trace: "-",
            workers: 1,
        });
    }
    let Ok(command) = cops_command(alloc) else {
        return Err(LineFault::Memory);
    };
    match command.try_get_matches_from(words) {
        Ok(matches) => match job_in(&matches) {
            Some(job) => Ok(job),
            None => Err(no_job(alloc, &matches)),
        },
        Err(error) => Err(as_fault(alloc, &error)),
    }
}
