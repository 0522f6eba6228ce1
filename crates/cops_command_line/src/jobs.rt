//! The job of each subcommand.
ghost use Rattle.std.specs.Prelude.{IfNone, IfSome, codes};
ghost use Rattle.clap.specs.Words.{found_of, rows_of, subcommand_rows_of};
ghost use Rattle.cops_command_line.specs.Line.{HasNoJob, HasNoJobIn, IsJobIn, IsJobOf};

use crate::job::Job;
use crate::values::{asks_no_more, format, idle, is_given, port, sessions, value, wanted, workers};
use clap::ArgMatches;

/// The job of `audit`, for a trace that is whole or may be cut: a number of workers together with `--so-far` is no job.
fn audit_job<'a>(matches: &ArgMatches<'a>) -> Option<Job<'a>>
    ensures some { IfSome result (IsJobOf (codes "audit") (rows_of (found_of matches.now))) }
    ensures none { IfNone result (HasNoJob (codes "audit") (rows_of (found_of matches.now))) }
{
    let trace = value(matches, "trace")?;
    if !is_given(matches, "so-far") {
        let workers = workers(matches)?;
        return Some(Job::Audit { trace, workers });
    }
    match value(matches, "workers") {
        Some(_) => None,
        None => Some(Job::SoFar { trace }),
    }
}

/// The job of `check`, for lines that are whole or still being written: an explanation that is asked for together with
/// `--follow` is no job.
fn check_job<'a>(matches: &ArgMatches<'a>) -> Option<Job<'a>>
    ensures some { IfSome result (IsJobOf (codes "check") (rows_of (found_of matches.now))) }
    ensures none { IfNone result (HasNoJob (codes "check") (rows_of (found_of matches.now))) }
{
    let lines = value(matches, "lines")?;
    let is_ranked = is_given(matches, "rank");
    if !is_given(matches, "follow") {
        return Some(Job::Check {
            lines,
            is_ranked,
            wanted: wanted(matches)?,
        });
    }
    if asks_no_more(matches) {
        Some(Job::Follow { lines, is_ranked })
    } else {
        None
    }
}

fn job_of<'a>(name: &str, matches: &ArgMatches<'a>) -> Option<Job<'a>>
    ensures some { IfSome result (IsJobOf name.now (rows_of (found_of matches.now))) }
    ensures none { IfNone result (HasNoJob name.now (rows_of (found_of matches.now))) }
{
    match name {
        "audit" => audit_job(matches),
        "explain" => Some(Job::Explain {
            trace: value(matches, "trace")?,
            wanted: wanted(matches)?,
        }),
        "check" => check_job(matches),
        "show" => Some(Job::Show {
            trace: value(matches, "trace")?,
        }),
        "import" => Some(Job::Import {
            lines: value(matches, "lines")?,
            trace: value(matches, "trace")?,
            format: format(matches)?,
            is_ranked: is_given(matches, "rank"),
        }),
        "convert" => Some(Job::Convert {
            trace: value(matches, "trace")?,
            new: value(matches, "new")?,
        }),
        "run" => Some(Job::Run {
            scenario: value(matches, "scenario")?,
            trace: value(matches, "trace")?,
        }),
        "serve" => Some(Job::Serve {
            port: port(matches)?,
            scenario: value(matches, "scenario")?,
            sessions: sessions(matches)?,
            idle: idle(matches)?,
            trace: value(matches, "trace"),
            is_announced: is_given(matches, "announce"),
        }),
        _ => None,
    }
}

/// The job of the subcommand that was found, if it is one.
pub fn job_in<'a>(matches: &ArgMatches<'a>) -> Option<Job<'a>>
    ensures some { IfSome result (IsJobIn (subcommand_rows_of matches.now)) }
    ensures none { IfNone result (HasNoJobIn (subcommand_rows_of matches.now)) }
{
    let (name, inner) = matches.subcommand()?;
    job_of(name, inner)
}
