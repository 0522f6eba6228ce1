//! Reading fields of JSON values: keys, values and versions, each a text. Stands on the values of the store and on
//! `serde_json`. The layers above use which text a field has, and that a field refused with `Form` has no text of the
//! right form.
#![tactic(auto)]

mod field;
mod unread;

pub use field::{key, value, version};
pub use unread::Unread;
