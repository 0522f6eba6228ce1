//! The program's command and its subcommands.
ghost use Rattle.std.specs.Prelude.{◌≡◌, IfOk, codes, false};
ghost use Rattle.clap.specs.Words.{app_of, new_app, rule_of, with_rule};
ghost use Rattle.clap.specs.declared.builder.command.Command.TheViews.{out-Command as fields_of};
ghost use Rattle.cops_command_line.specs.Commands.{audit_app, check_app, explaining, cops_app, cops_top, convert_app, explain_app, import_app, port_app, positional, run_app, serve_app, show_app, versioned};

use crate::arguments::{file_arg, flag_arg, number_arg, port_arg, value_arg};
use crate::job::{MAX_IDLE, MAX_SESSIONS};
use crate::texts::{
    ABOUT, ALL_HELP, ANNOUNCE_HELP, AUDIT_ABOUT, About, CHECK_ABOUT, CONVERT_ABOUT, EXPLAIN_ABOUT,
    FAULT_HELP, FOLLOW_HELP, FORMAT_HELP, IDLE_HELP, IMPORT_ABOUT, JSON_HELP, LINES_HELP,
    NEW_TRACE_HELP, PICTURE_HELP, RANK_HELP, RECORD_HELP, RUN_ABOUT, SCENARIO_HELP, SERVE_ABOUT,
    SESSIONS_HELP, SHOW_ABOUT, SO_FAR_HELP, TRACE_HELP, Text, VERSION, WORKERS_HELP,
};
use clap::{Arg, Command};
use cops_types::{MAX_OPS, MAX_WORKERS};
use std::alloc::{AllocError, Global};

/// A subcommand with this name and its texts, without arguments.
fn described<'a>(alloc: Global, name: Text, about: About) -> Command<'a>
    ensures app { app_of result ≡ new_app name.now }
    ensures local { (fields_of result).has_globals ≡ false }
{
    Command::new(alloc, name)
        .about(about.short)
        .long_about(about.long)
}

/// A subcommand that reads a trace.
fn of_trace<'a>(alloc: Global, name: Text, about: About) -> Result<Command<'a>, AllocError>
    ensures app { IfOk result (λ c. app_of c ≡ with_rule (new_app name.now) (positional (codes "trace"))) }
    ensures local { IfOk result (λ c. (fields_of c).has_globals ≡ false) }
{
    described(alloc, name, about).arg(file_arg(alloc, "trace", "TRACE", TRACE_HELP))
}

fn audit_command<'a>(alloc: Global) -> Result<Command<'a>, AllocError>
    ensures app { IfOk result (λ c. app_of c ≡ audit_app) }
    ensures local { IfOk result (λ c. (fields_of c).has_globals ≡ false) }
{
    let command = of_trace(alloc, "audit", AUDIT_ABOUT)?;
    let workers = number_arg(alloc, "workers", "N", u32::from(MAX_WORKERS), WORKERS_HELP);
    command
        .arg(workers)?
        .arg(flag_arg(alloc, "so-far", SO_FAR_HELP))
}

/// A subcommand with the options of an explanation.
fn explaining<'a>(alloc: Global, command: Command<'a>) -> Result<Command<'a>, AllocError>
    requires { (fields_of command).has_globals ≡ false }
    ensures app { IfOk result (λ c. app_of c ≡ explaining (app_of command.entry)) }
    ensures local { IfOk result (λ c. (fields_of c).has_globals ≡ false) }
{
    let fault = number_arg(alloc, "fault", "N", MAX_OPS as u32, FAULT_HELP);
    let command = command.arg(flag_arg(alloc, "all", ALL_HELP))?.arg(fault)?;
    let picture = value_arg(alloc, "picture", "FILE", PICTURE_HELP);
    command
        .arg(picture)?
        .arg(flag_arg(alloc, "json", JSON_HELP))
}

fn explain_command<'a>(alloc: Global) -> Result<Command<'a>, AllocError>
    ensures app { IfOk result (λ c. app_of c ≡ explain_app) }
    ensures local { IfOk result (λ c. (fields_of c).has_globals ≡ false) }
{
    let command = of_trace(alloc, "explain", EXPLAIN_ABOUT)?;
    explaining(alloc, command)
}

fn check_command<'a>(alloc: Global) -> Result<Command<'a>, AllocError>
    ensures app { IfOk result (λ c. app_of c ≡ check_app) }
    ensures local { IfOk result (λ c. (fields_of c).has_globals ≡ false) }
{
    let lines = file_arg(alloc, "lines", "LINES", LINES_HELP);
    let command = described(alloc, "check", CHECK_ABOUT).arg(lines)?;
    explaining(alloc, command)?
        .arg(flag_arg(alloc, "rank", RANK_HELP))?
        .arg(flag_arg(alloc, "follow", FOLLOW_HELP))
}

fn show_command<'a>(alloc: Global) -> Result<Command<'a>, AllocError>
    ensures app { IfOk result (λ c. app_of c ≡ show_app) }
    ensures local { IfOk result (λ c. (fields_of c).has_globals ≡ false) }
{
    of_trace(alloc, "show", SHOW_ABOUT)
}

/// A subcommand that reads a file and writes a trace.
fn to_trace<'a>(
    alloc: Global,
    name: Text,
    about: About,
    input: Arg<'a>,
) -> Result<Command<'a>, AllocError>
    requires { input.global ≡ false }
    ensures app { IfOk result (λ c. app_of c ≡ with_rule (with_rule (new_app name.now) (rule_of input.entry)) (positional (codes "trace"))) }
    ensures local { IfOk result (λ c. (fields_of c).has_globals ≡ false) }
{
    let command = described(alloc, name, about).arg(input)?;
    command.arg(file_arg(alloc, "trace", "TRACE", NEW_TRACE_HELP))
}

fn import_command<'a>(alloc: Global) -> Result<Command<'a>, AllocError>
    ensures app { IfOk result (λ c. app_of c ≡ import_app) }
    ensures local { IfOk result (λ c. (fields_of c).has_globals ≡ false) }
{
    let lines = file_arg(alloc, "lines", "LINES", LINES_HELP);
    let command = to_trace(alloc, "import", IMPORT_ABOUT, lines)?;
    let format = number_arg(alloc, "format", "N", 2, FORMAT_HELP);
    command.arg(format)?.arg(flag_arg(alloc, "rank", RANK_HELP))
}

fn convert_command<'a>(alloc: Global) -> Result<Command<'a>, AllocError>
    ensures app { IfOk result (λ c. app_of c ≡ convert_app) }
    ensures local { IfOk result (λ c. (fields_of c).has_globals ≡ false) }
{
    let command = of_trace(alloc, "convert", CONVERT_ABOUT)?;
    command.arg(file_arg(alloc, "new", "NEW", NEW_TRACE_HELP))
}

fn run_command<'a>(alloc: Global) -> Result<Command<'a>, AllocError>
    ensures app { IfOk result (λ c. app_of c ≡ run_app) }
    ensures local { IfOk result (λ c. (fields_of c).has_globals ≡ false) }
{
    let scenario = file_arg(alloc, "scenario", "SCENARIO", SCENARIO_HELP);
    to_trace(alloc, "run", RUN_ABOUT, scenario)
}

/// The subcommand that serves, without its options.
fn port_command<'a>(alloc: Global) -> Result<Command<'a>, AllocError>
    ensures app { IfOk result (λ c. app_of c ≡ port_app) }
    ensures local { IfOk result (λ c. (fields_of c).has_globals ≡ false) }
{
    let command = described(alloc, "serve", SERVE_ABOUT).arg(port_arg(alloc))?;
    command.arg(file_arg(alloc, "scenario", "SCENARIO", SCENARIO_HELP))
}

fn serve_command<'a>(alloc: Global) -> Result<Command<'a>, AllocError>
    ensures app { IfOk result (λ c. app_of c ≡ serve_app) }
    ensures local { IfOk result (λ c. (fields_of c).has_globals ≡ false) }
{
    let command = port_command(alloc)?;
    let sessions = number_arg(
        alloc,
        "sessions",
        "N",
        u32::from(MAX_SESSIONS),
        SESSIONS_HELP,
    );
    let idle = number_arg(alloc, "idle", "SECONDS", u32::from(MAX_IDLE), IDLE_HELP);
    command
        .arg(sessions)?
        .arg(idle)?
        .arg(value_arg(alloc, "trace", "FILE", RECORD_HELP))?
        .arg(flag_arg(alloc, "announce", ANNOUNCE_HELP))
}

/// The command with its version. A subcommand is required, and the words begin after the program's name.
fn with_version<'a>(command: Command<'a>) -> Command<'a>
    ensures app { app_of result ≡ versioned (app_of command.entry) }
    ensures local { (fields_of result).has_globals ≡ (fields_of command.entry).has_globals }
{
    command
        .version(VERSION)
        .no_binary_name(true)
        .subcommand_required(true)
}

fn top_command<'a>(alloc: Global) -> Result<Command<'a>, AllocError>
    ensures app { IfOk result (λ c. app_of c ≡ cops_top) }
    ensures local { IfOk result (λ c. (fields_of c).has_globals ≡ false) }
{
    let command = described(alloc, "cops", ABOUT);
    with_version(command).bin_name("cops")
}

/// The program's command. A subcommand is required, and each takes the words of its own job.
pub fn cops_command<'a>(alloc: Global) -> Result<Command<'a>, AllocError>
    ensures { IfOk result (λ c. app_of c ≡ cops_app) }
{
    top_command(alloc)?
        .subcommand(audit_command(alloc)?)?
        .subcommand(explain_command(alloc)?)?
        .subcommand(check_command(alloc)?)?
        .subcommand(show_command(alloc)?)?
        .subcommand(import_command(alloc)?)?
        .subcommand(convert_command(alloc)?)?
        .subcommand(run_command(alloc)?)?
        .subcommand(serve_command(alloc)?)
}
