//! The texts of help, usage and version.

/// A text that stands in the program.
pub type Text = &'static str;

/// The version of the program, and the Rattle toolchain and its logic with which it is proved and built.
pub const VERSION: &str = "0.2.0 (rattle-kit-13f, logic dac8208d650f15bf)";

/// What the help says of a command: in one line, and at length.
#[derive(Clone, Copy, Debug)]
pub struct About {
    pub short: Text,
    pub long: Text,
}

pub const ABOUT: About = About {
    short: "A COPS cluster in one process, and an auditor of the histories that clients recorded",
    long: "\
A COPS cluster in one process, and an auditor of the histories that clients recorded.

A trace is a file that records what each client of a store put and got. The auditor accepts it
where the history in it is causally convergent, and else names the operations at fault.
With no words at all, cops judges the trace on standard input. A scenario is a file that says
what a cluster is made of and what happens in it; cops runs it and records a trace, or serves
the clients of such a cluster.

The exit status is 0 where the trace is accepted, or not refused so far, or the command did its
work, 1 where the trace is refused, or refused so far, 2 where the input or the words are faulty,
3 where memory ran out, and 4 where a file could not be opened, read or written, or a run, a
serving or an import failed.",
};

pub const AUDIT_ABOUT: About = About {
    short: "Judges whether a recorded history is causally convergent",
    long: "\
Judges whether a recorded history is causally convergent.

Prints one line, `accepted: ..`, or `refused: ..` and a line for each operation at fault with
what it contradicts. A file that is no trace is answered with one line, `faulty: ..`, that says
what is wrong and at which byte.

With --so-far a trace that is cut is judged by the whole records before the cut: it prints where
the trace is cut, and then `so far: clean`, `so far: waiting N` where N gets have no put of their
version yet, or `so far: refused` where a fault is there that no further record takes away.",
};

pub const EXPLAIN_ABOUT: About = About {
    short: "Explains the faults of a recorded history",
    long: "\
Explains the faults of a recorded history: of each, which operations show it.

Without --all and --fault the first 20 faults are explained. The last line names the classes of
faults that were not looked for, where there are any. With --picture one fault is drawn as well,
the one of --fault or else the first, and the file of the picture is written anew: it is empty
where there is no such fault. Where the picture goes to standard output, the words go to standard
error. A file that is no trace is answered with one line, `faulty: ..`, that says what is wrong and
at which byte. With --json the answer is one JSON object, also where the file is no trace.",
};

pub const CHECK_ABOUT: About = About {
    short: "Judges what the clients of a store saw, and explains the faults",
    long: "\
Judges JSON Lines that say what the clients of a store saw, and explains the faults by the names
and lines of the file.

The lines are those of `cops import --format 2`, which is judged as by `cops audit`, without a trace
file. The verdict is printed, then how many puts of unknown outcome took effect, if there are any,
and where it is `refused: ..`, of each fault which operations show it, each by the name of its
client and the number of its line. The options are those of `cops explain`. The first line that is
wrong is answered with one line, `faulty: line N: ..`.

With --follow the lines are judged while they are written, until standard input or a pipe ends or the
program is interrupted. When the state changes, and at most once a second, it is printed:
`so far: clean`, `so far: waiting N` where N gets have no put of their version yet, or
`so far: refused`, with the first fault explained, where no further line can make the history right.
Of a get that waits, its put is taken to be the one operation of a client of its own.",
};

pub const SHOW_ABOUT: About = About {
    short: "Prints a trace as text, a line for each frame",
    long: "\
Prints a trace as text: a line for each frame, with its kind and its fields.

Where the file is no whole trace, the frames before the fault are printed, and then one line,
`faulty: ..`, that says what is wrong and at which byte.",
};

pub const IMPORT_ABOUT: About = About {
    short: "Makes a trace of what the clients of another store saw",
    long: "\
Makes a trace of JSON Lines that tell what the clients of another store saw.

A line is one operation, a JSON object, and each client's lines stand in the order in which it
did them. Its members are client, a text or a whole number; put, get or del, the key; value, a text;
and version, a text `clock.node`, a whole number, which is a clock at node 0, or a list of both.
A get that found nothing has the value null, and a version that is null or missing. With --format 2
there may be deletions, which have no value or null, and gets that found one, with the value null
and its version.

A put or a deletion whose outcome is unknown, since its client got no answer, has the member ok with
the value null, and a version that is null or missing. It takes effect where a get returned it, as
the operation of a client of its own; the others are left out. Other members, and lines of blanks,
are passed over.

With --rank versions are whole numbers below 2^64, or texts, which are compared by their bytes, or
lists of such a number and a text, as a timestamp and what breaks ties; all of one kind. The least
one of the file gets the clock 1, the next the clock 2, and so on.

Prints a line `client N NAME` for each client with its number in the trace, one
`client N NAME, line L` for each put or deletion of unknown outcome that took effect, and then
`imported: N operations, M clients`. Where outcomes are unknown, the last line is
`unknown outcomes: N took effect, M left out`. The first line that is wrong is answered with one
line, `faulty: line N: ..`, and an older trace file stays as it was. The lines are read more than
once: those of standard input or of a pipe are kept in a file meanwhile, in the folder that TMPDIR
names, or else in /tmp, and so is the trace until it is whole. Where the trace goes to standard
output, all that is printed goes to standard error.",
};

pub const CONVERT_ABOUT: About = About {
    short: "Writes a trace as one of format 2",
    long: "\
Writes a trace of format 1 or 2 as one of format 2, with the same clients and operations.

Prints `converted: N operations`. A file that is no trace is answered with one line, `faulty: ..`,
that says what is wrong and at which byte, and an older file of the new trace stays as it was. Where
the new trace goes to standard output, all that is printed goes to standard error.",
};

pub const RUN_ABOUT: About = About {
    short: "Runs a scenario, and records what its clients saw",
    long: "\
Runs the cluster that a scenario describes, and records what its clients saw.

Prints a line for each event with its outcome, or, where clients have scripts, a line for each
client, and then the report of the recorded history. Clients with scripts run on threads of their
own, and their trace is written meanwhile. The trace file is written anew. A scenario that is
mistaken is answered with one line, `faulty: ..`, that names the field. Where the trace goes to
standard output, all that is printed goes to standard error.",
};

pub const SERVE_ABOUT: About = About {
    short: "Serves clients of a scenario's cluster on a port of this machine",
    long: "\
Serves the clients of the cluster that a scenario describes, on a port of 127.0.0.1.

One client is connected at a time. It first says which client of the scenario it is, and then
puts and gets in that client's data centre. When it has gone, its puts are sent to the other data
centres, and the next client is served. With --idle a client that sends nothing, or reads nothing,
for that many seconds is disconnected. After the last session cops prints the report on what all
clients saw, and ends. With --trace it also writes the trace of what they saw; an older file stays as
it was until then. Where the trace goes to standard output, the report goes to standard error.
Scripts and events of the scenario are not run.",
};

pub const PORT_HELP: &str = "The port to listen on, 1 to 65535";

pub const SESSIONS_HELP: &str =
    "How many sessions to serve before it ends, 1 to 65535; without it 1";

pub const IDLE_HELP: &str =
    "After how many idle seconds a client is disconnected, 1 to 65535; without it never";

pub const RECORD_HELP: &str =
    "The trace file to write after the last session, or `-` for standard output";

pub const ANNOUNCE_HELP: &str =
    "Say on standard error when the port is open; who then closes without a byte is no session";

pub const TRACE_HELP: &str = "The trace file, or `-` for standard input";

pub const WORKERS_HELP: &str =
    "How many workers judge the trace, 1 to 64, and 1 where it is not given";

pub const SO_FAR_HELP: &str =
    "If the trace is cut off, judge the part before the cut; not with --workers";

pub const NEW_TRACE_HELP: &str = "The trace file to write, or `-` for standard output";

pub const SCENARIO_HELP: &str = "The scenario file, or `-` for standard input";

pub const LINES_HELP: &str = "The file of lines, or `-` for standard input";

pub const ALL_HELP: &str = "Explain every fault, not only the first 20; not with --fault";

pub const FAULT_HELP: &str = "Explain only the fault of this number, 1 to 16000000";

pub const JSON_HELP: &str = "Print one JSON object in place of words";

pub const RANK_HELP: &str =
    "Take versions of any store, and give each its rank among those of the file";

pub const FOLLOW_HELP: &str =
    "Judge the lines while they are written, and print the state when it changes; only with --rank";

pub const FORMAT_HELP: &str =
    "The format of the trace, 1 or 2; without it 1, which has no deletions";

pub const PICTURE_HELP: &str =
    "The file to draw one fault to, that of --fault or else the first; `-` for standard output";

/// The usage where `--so-far` is given with `--workers`.
pub const SO_FAR_CONFLICT: &str = "\
error: the argument '--so-far' cannot be used with '--workers <N>'

Usage: cops audit --so-far <TRACE>

For more information, try '--help'.
";

/// The usage where `--all` is given with `--fault` to `explain`.
pub const ALL_CONFLICT: &str = "\
error: the argument '--all' cannot be used with '--fault <N>'

Usage: cops explain --all <TRACE>

For more information, try '--help'.
";

/// The usage where `--follow` is given with an option of an explanation.
pub const FOLLOW_CONFLICT: &str = "\
error: the argument '--follow' cannot be used with one or more of the other specified arguments

Usage: cops check --follow <LINES>

For more information, try '--help'.
";

/// The usage where `--all` is given with `--fault` to `check`.
pub const CHECK_ALL_CONFLICT: &str = "\
error: the argument '--all' cannot be used with '--fault <N>'

Usage: cops check --all <LINES>

For more information, try '--help'.
";
