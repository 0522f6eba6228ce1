//! Tests of what no contract says of links, the world, recorders, the cluster on threads, and replication, through
//! their public calls alone: allocations that fail, threads that meet, gates that hold. They are in a crate above
//! those, so that proving a crate does not include its tests.
#![tactic(auto)]

#[cfg(test)]
mod link;
#[cfg(test)]
mod record;
#[cfg(test)]
mod threads;
#[cfg(test)]
mod world;
