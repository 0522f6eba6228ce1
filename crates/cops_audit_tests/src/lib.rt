//! Tests of what neither a contract nor the text of an audit says about devices, streams, the auditor, its workers and
//! the reports, through their public calls alone. They are in a crate above those, so that proving each of those does
//! not prove its tests again. What an audit says about a whole trace is covered by the test cases of the program.
#![tactic(auto)]

#[cfg(test)]
mod audit;
#[cfg(test)]
mod batch;
#[cfg(test)]
mod building;
#[cfg(test)]
mod convert;
#[cfg(test)]
mod lookups;
#[cfg(test)]
mod online;
#[cfg(test)]
mod pieces;
#[cfg(test)]
mod report;
#[cfg(test)]
mod stream;
#[cfg(test)]
mod types;
