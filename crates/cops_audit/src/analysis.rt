use crate::summaries::Summaries;
use cops_types::{History, VersionedPut};

/// The puts of a history in order of versions (`table`), and where puts and the sources of pending reads are among them
/// (`places` and `sources`), by their numbers.
#[derive(Drop)]
pub struct PutIndex<'a> {
    pub history: &'a History,
    pub table: &'a [VersionedPut],
    pub places: &'a [u32],
    pub sources: &'a [u32],
}

/// All that the search for stale gets looks up: the puts of a history in order of versions, the causal summaries of its
/// operations, and the puts on each key: for each put the next one (`nexts`) and the first one (`firsts`), and for each
/// key, by its number, the first put on it (`by_key`).
#[derive(Drop)]
pub struct Analysis<'a> {
    pub history: &'a History,
    pub table: &'a [VersionedPut],
    pub summaries: &'a Summaries<'a>,
    pub nexts: &'a [u32],
    pub by_key: &'a [Option<u32>],
    pub firsts: &'a [u32],
}
