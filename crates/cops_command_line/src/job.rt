//! The jobs that the words on the command line ask for.
use cops_types::{Format, Selection};

/// The greatest port.
pub const MAX_PORT: u16 = 65_535;

/// The greatest number of sessions of a server.
pub const MAX_SESSIONS: u16 = 65_535;

/// The greatest number of seconds that a client of a server may be idle, where a number is given.
pub const MAX_IDLE: u16 = 65_535;

/// What an explanation is to be: of which faults, with a picture of one of them to a file, if one is named, and as JSON
/// or in words.
#[derive(Clone, Copy, Debug, PartialEq, Eq)]
pub struct Wanted<'a> {
    pub faults: Selection,
    pub picture: Option<&'a str>,
    pub is_json: bool,
}

/// What the words ask for.
#[derive(Clone, Copy, Debug, PartialEq, Eq)]
pub enum Job<'a> {
    /// Judge a trace by `workers` workers, 1 to 64, and print the verdict. `-` is standard input.
    Audit {
        trace: &'a str,
        workers: u8,
    },
    /// Judge a trace by one worker and print the verdict. Where the trace is cut, print where, and the verdict so far
    /// on what came before. `-` is standard input.
    SoFar {
        trace: &'a str,
    },
    /// Judge a trace and explain its faults. `-` as the trace is standard input.
    Explain {
        trace: &'a str,
        wanted: Wanted<'a>,
    },
    /// Judge the history that lines describe and explain its faults, with the versions of the lines by their ranks or
    /// as they stand. `-` as the lines is standard input.
    Check {
        lines: &'a str,
        is_ranked: bool,
        wanted: Wanted<'a>,
    },
    /// Judge the lines of a file while it is written, and print the state of their history when it changes. `-` as the
    /// lines is standard input.
    Follow {
        lines: &'a str,
        is_ranked: bool,
    },
    /// Print a trace, one line for each frame. `-` is standard input.
    Show {
        trace: &'a str,
    },
    /// Import lines as a trace of this format, with the versions of the lines by their ranks or as they stand, write it
    /// to a file, and print the names of its clients. `-` as the lines is standard input, and as the trace standard
    /// output.
    Import {
        lines: &'a str,
        trace: &'a str,
        format: Format,
        is_ranked: bool,
    },
    /// Write a trace of either format as one of format 2 to a file, and print how many operations it has. `-` as the
    /// trace is standard input, and as the new one standard output.
    Convert {
        trace: &'a str,
        new: &'a str,
    },
    /// Run a scenario, print its outcome, and write its trace to a file. `-` as the scenario is standard input, and as
    /// the trace standard output.
    Run {
        scenario: &'a str,
        trace: &'a str,
    },
    /// Serve `sessions` sessions, 1 to 65,535, of a scenario's cluster on a port of 127.0.0.1, and print the report.
    /// `-` is standard input. A client that is idle for `idle` seconds, 1 to 65,535, is dropped; where no number is
    /// given, no client is. The trace goes to a file, if one is named; `-` is standard output. If it is announced, a line
    /// on standard error says when the port is open.
    Serve {
        port: u16,
        scenario: &'a str,
        sessions: u16,
        idle: Option<u16>,
        trace: Option<&'a str>,
        is_announced: bool,
    },
}
