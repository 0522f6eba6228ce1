//! The auditor's verdict on a history: the first of four classes of faults that is not empty, with all its faults in
//! order of names, or the puts in order of versions. An accepted history is causally convergent in the sense of CCv
//! (Bouajjani, Enea, Guerraoui, Hamza, POPL 2017), for puts that have versions, with the order of versions as the
//! arbitration.
//!
//! The definitions are in cops_types. The layers above use the verdict, that there is only one, that acceptance is
//! convergence by the order of versions, and the past of an operation. A parallel judge uses `Puts` and `Tables` of a
//! history, which find the faults among some of the operations and give the verdict from those of all. Reports use what
//! single operations put and got, and the verdict with the puts in order of versions. `Buckets` and `place_near` find a
//! put by its version faster than `place_of`, and tests compare them.
#![tactic(auto)]

mod analysis;
mod assessing;
mod climbing;
mod epochs;
mod fault;
mod feed_fault;
mod flat;
mod floors;
mod hints;
mod judged;
mod judging;
mod key_index;
mod keys;
mod laws;
mod names;
mod online;
mod op_version;
mod parallel;
mod put_places;
mod puts;
mod room;
mod search;
mod sources;
mod stale;
mod summaries;
mod sweep;
mod table;
mod tables;
mod verdict;
mod window;

pub use fault::Fault;
pub use feed_fault::FeedFault;
pub use hints::{Buckets, place_near};
pub use judged::Judged;
pub use judging::{judge, judge_in_order};
pub use laws::{
    accepted_exactly_where_convergent, clean_exactly_where_accepted, one_verdict,
    refused_stays_refused, verdict_on_convergence,
};
pub use online::Online;
pub use puts::Puts;
pub use search::past;
pub use table::{first_from, place_of, puts_by_version};
pub use tables::Tables;
pub use verdict::{Faults, NotAbove, OrderedVerdict, SoFar, Stale, Verdict};
