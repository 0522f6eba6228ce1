//! Tests of what no contract says of books, outcomes, runs on threads, and a cluster behind the front door, through
//! their public calls alone: altered books, reads and writes that fail, gates that hold. They are in a crate above
//! those, so that proving a crate does not include its tests.
#![tactic(auto)]

#[cfg(test)]
mod building;
#[cfg(test)]
mod deleting;
#[cfg(test)]
mod ending;
#[cfg(test)]
mod live;
#[cfg(test)]
mod running;
#[cfg(test)]
mod serving;
#[cfg(test)]
mod streaming;
#[cfg(test)]
mod tie;
