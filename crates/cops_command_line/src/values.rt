//! The values that the words give to arguments.
ghost use Rattle.std.specs.Prelude.{◌≡◌, ◌↔◌, ℕ, IfNone, IfSome, IsTrue, Option, codes, option_map};
ghost use Rattle.clap.specs.Words.{first_of, found_of, rows_of};
ghost use Rattle.cops_types.specs.declared.limits.TheConstants.{MAX_OPS, MAX_WORKERS};
ghost use Rattle.cops_types.specs.declared.selection.Selection.{Selection as ASelection};
ghost use Rattle.cops_command_line.specs.declared.job.TheConstants.{MAX_IDLE, MAX_PORT, MAX_SESSIONS};
ghost use Rattle.cops_types.specs.declared.format.Format.{Format as AFormat};
ghost use Rattle.cops_command_line.specs.declared.job.Wanted.{Wanted as AWanted};
ghost use Rattle.cops_command_line.specs.Line.{IsAsked, IsFormat, IsGiven, IsNumber, IsNumberGiven, IsNumberIfGiven, IsNumberOr1, IsWanted, AsksNoMore};

use crate::job::{MAX_IDLE, MAX_PORT, MAX_SESSIONS, Wanted};
use clap::ArgMatches;
use cops_types::{Format, MAX_OPS, MAX_WORKERS, Selection};

/// The first value of an argument.
pub fn value<'a>(matches: &ArgMatches<'a>, id: &str) -> Option<&'a str>
    ensures { option_map (λ s. s.now) result ≡ first_of id.now (rows_of (found_of matches.now)) }
{
    matches.get_str(id)
}

/// Whether a flag was given.
pub fn is_given(matches: &ArgMatches<'_>, id: &str) -> bool
    ensures { IsTrue result ↔ IsGiven (first_of id.now (rows_of (found_of matches.now))) }
{
    match value(matches, id) {
        Some(text) => text == "true",
        None => false,
    }
}

/// The number, from 1 to `most`, that a text is in decimal.
fn number_in(text: &str, most: u32) -> Option<u32>
    ensures some { IfSome result (IsNumber most text.now) }
    ensures none { IfNone result ((n : ℕ) → ¬ IsNumber most text.now n) }
{
    let Ok(number) = text.parse::<u32>() else {
        return None;
    };
    if number == 0 {
        return None;
    }
    if number > most {
        return None;
    }
    Some(number)
}

/// Like `number_in`, for numbers of at most 65,535.
fn small_number_in(text: &str, most: u16) -> Option<u16>
    ensures some { IfSome result (IsNumber most text.now) }
    ensures none { IfNone result ((n : ℕ) → ¬ IsNumber most text.now n) }
{
    number_in(text, u32::from(most)).map(|number| number as u16)
}

/// The number of workers: 1 where it is not given.
pub fn workers(matches: &ArgMatches<'_>) -> Option<u8>
    ensures some { IfSome result (IsNumberOr1 MAX_WORKERS (first_of (codes "workers") (rows_of (found_of matches.now)))) }
    ensures none { IfNone result ((n : ℕ) → ¬ IsNumberOr1 MAX_WORKERS (first_of (codes "workers") (rows_of (found_of matches.now))) n) }
{
    match value(matches, "workers") {
        Some(text) => number_in(text, u32::from(MAX_WORKERS)).map(|number| number as u8),
        None => Some(1),
    }
}

/// The port.
pub fn port(matches: &ArgMatches<'_>) -> Option<u16>
    ensures some { IfSome result (IsNumberGiven MAX_PORT (first_of (codes "port") (rows_of (found_of matches.now)))) }
    ensures none { IfNone result ((n : ℕ) → ¬ IsNumberGiven MAX_PORT (first_of (codes "port") (rows_of (found_of matches.now))) n) }
{
    match value(matches, "port") {
        Some(text) => small_number_in(text, MAX_PORT),
        None => None,
    }
}

/// The number of sessions: 1 where it is not given.
pub fn sessions(matches: &ArgMatches<'_>) -> Option<u16>
    ensures some { IfSome result (IsNumberOr1 MAX_SESSIONS (first_of (codes "sessions") (rows_of (found_of matches.now)))) }
    ensures none { IfNone result ((n : ℕ) → ¬ IsNumberOr1 MAX_SESSIONS (first_of (codes "sessions") (rows_of (found_of matches.now))) n) }
{
    match value(matches, "sessions") {
        Some(text) => small_number_in(text, MAX_SESSIONS),
        None => Some(1),
    }
}

/// For how many seconds a client may be idle, or `Some(None)` where it is not given.
pub fn idle(matches: &ArgMatches<'_>) -> Option<Option<u16>>
    ensures some { IfSome result (IsNumberIfGiven MAX_IDLE (first_of (codes "idle") (rows_of (found_of matches.now)))) }
    ensures none { IfNone result ((n : Option ℕ) → ¬ IsNumberIfGiven MAX_IDLE (first_of (codes "idle") (rows_of (found_of matches.now))) n) }
{
    match value(matches, "idle") {
        Some(text) => Some(Some(small_number_in(text, MAX_IDLE)?)),
        None => Some(None),
    }
}

/// Which faults are asked for: `None` where both all and one of them are.
fn asked(matches: &ArgMatches<'_>) -> Option<Selection>
    ensures some { IfSome result (IsAsked (first_of (codes "all") (rows_of (found_of matches.now))) (first_of (codes "fault") (rows_of (found_of matches.now)))) }
    ensures none { IfNone result ((asked : ASelection) → ¬ IsAsked (first_of (codes "all") (rows_of (found_of matches.now))) (first_of (codes "fault") (rows_of (found_of matches.now))) asked) }
{
    let all = is_given(matches, "all");
    match value(matches, "fault") {
        Some(_) if all => None,
        Some(text) => Some(Selection::One(number_in(text, MAX_OPS as u32)?)),
        None if all => Some(Selection::All),
        None => Some(Selection::First),
    }
}

/// What an explanation is to be: `None` where both all faults and one of them are asked for.
pub fn wanted<'a>(matches: &ArgMatches<'a>) -> Option<Wanted<'a>>
    ensures some { IfSome result (IsWanted (rows_of (found_of matches.now))) }
    ensures none { IfNone result ((wanted : AWanted) → ¬ IsWanted (rows_of (found_of matches.now)) wanted) }
{
    Some(Wanted {
        faults: asked(matches)?,
        picture: value(matches, "picture"),
        is_json: is_given(matches, "json"),
    })
}

/// Whether no explanation is asked for: neither all faults nor one of them, no picture and no JSON.
pub fn asks_no_more(matches: &ArgMatches<'_>) -> bool
    ensures { IsTrue result ↔ AsksNoMore (rows_of (found_of matches.now)) }
{
    let is_of_faults = is_given(matches, "all") || value(matches, "fault").is_some();
    !is_of_faults && value(matches, "picture").is_none() && !is_given(matches, "json")
}

/// The format of a trace: format 1 where it is not given.
pub fn format(matches: &ArgMatches<'_>) -> Option<Format>
    ensures some { IfSome result (IsFormat (first_of (codes "format") (rows_of (found_of matches.now)))) }
    ensures none { IfNone result ((format : AFormat) → ¬ IsFormat (first_of (codes "format") (rows_of (found_of matches.now))) format) }
{
    match value(matches, "format") {
        Some(text) if number_in(text, 2)? == 2 => Some(Format::Two),
        _ => Some(Format::One),
    }
}
