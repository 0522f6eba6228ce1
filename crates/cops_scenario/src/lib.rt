//! Scenario files: the parts of a cluster, and the operations of its clients, as one JSON object. Either each client
//! has a script, or there is a list of events, which are the steps of the world. Depends on the world's events, on how
//! commands read and end, and on `serde_json`. The layers above use that a scenario is within its limits, that a
//! command reads the scenario of its input's bytes, and the printed line of an outcome.
#![tactic(auto)]

mod event;
mod fault;
mod field;
mod input;
mod laws;
mod line;
mod reading;
mod scenario;
mod script;

pub use fault::{Field, ScenarioFault};
pub use input::read_scenario;
pub use laws::text_is_right;
pub use line::outcome_line;
pub use scenario::Scenario;
pub use script::{ScriptOp, ScriptedClient};
