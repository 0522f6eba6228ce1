//! Explanations: for each fault of a refusal a paragraph, which says what happened, why it is a fault, where to look
//! and what usually causes it; and for one fault a picture in SVG, with the operations concerned in lanes by their
//! clients. The crate depends on the report, and uses its line for an accepted history, its chains and its puts by
//! versions. The layer above uses that the text is exactly that of the faults that are asked for, that the picture is
//! of the fault that is asked for, and that there is no picture exactly where there is no such fault.
#![tactic(auto)]

mod causes;
mod columns;
mod contents;
mod drawing;
mod explaining;
mod laws;
mod layout;
mod limits;
mod lines;
mod links;
mod names;
mod naming;
mod operation;
mod others;
mod paragraphs;
mod pictures;
mod refused;
mod sentence;
mod sizes;
mod steps;
mod style;

pub use explaining::explain;
pub use laws::{known_by_its_client, one_explanation};
pub use limits::{FIRST_FAULTS, MOST_OTHERS, VALUE_BYTES};
pub use naming::{LineNames, NamedHistory, Naming};
pub use pictures::picture;
pub use refused::Refused;
