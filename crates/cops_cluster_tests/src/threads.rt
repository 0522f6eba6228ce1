//! The cluster on threads, and replication.

mod building;
mod clients;
mod replicating;
mod values;
