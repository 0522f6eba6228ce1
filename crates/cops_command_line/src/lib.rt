//! The words after the program's name, read as one job: `audit TRACE`, also with `--workers N` or with `--so-far`;
//! `explain TRACE` or `check LINES`, also with `--all` or `--fault N`, with `--picture FILE` and with `--json`;
//! `check` with `--rank`, and instead of the others with `--follow`; `show TRACE`; `import LINES TRACE`, also with
//! `--format N` and `--rank`; `convert TRACE NEW`; `run SCENARIO TRACE`; or `serve PORT SCENARIO`, also with
//! `--sessions N`, `--idle SECONDS`, `--trace FILE` and `--announce`; and with no words the audit of standard input. The crate depends on `clap`, which has the texts of usage and help. The layer above uses the
//! job with its texts, which the words determine, and the text to print where there is none.
#![tactic(auto)]

mod arguments;
mod command;
mod fault;
mod job;
mod jobs;
mod reading;
mod texts;
mod values;

pub use fault::LineFault;
pub use job::{Job, Wanted};
pub use reading::line;
