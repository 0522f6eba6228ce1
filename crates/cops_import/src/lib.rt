//! Imports JSON Lines as a trace: each line is one operation of a client, in the order of each client. Stands on
//! traces, on the writer of their texts and on `serde_json`. The layers above use that what was written is the text of
//! the one trace that all lines together describe, that a line reported as faulty is the first wrong one, and that ranks
//! keep the order of another store's versions.
#![tactic(auto)]

mod ending;
mod fault;
mod field;
mod found;
mod imported;
mod importer;
mod keys;
mod laws;
mod line;
mod name;
mod names;
mod not_given;
mod outcome;
mod ranks;
mod reading;
mod reported;
mod rules;
mod seen;
mod store_version;
mod surveying;
mod version;

pub use fault::{ImportFault, JsonLineFault, faulty_line};
pub use imported::{Imported, Unimported, outcome_counts};
pub use importer::cut_line;
pub use laws::{lines_determine_one, ranks_keep_order};
pub use line::is_blank;
pub use name::Name;
pub use names::Names;
pub use outcome::Outcome;
pub use ranks::Ranks;
pub use reading::import_stream;
pub use reported::{LineOp, Reported, UnknownPut};
pub use rules::{Expected, Rules, Versions};
pub use surveying::{Surveyed, survey, survey_outcomes};
