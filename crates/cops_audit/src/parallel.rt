ghost use Rattle.std.specs.Prelude.{◌≤◌, IfOk, length};
ghost use Rattle.cops_audit.specs.Analyses.{IsPutIndex};
ghost use Rattle.cops_audit.specs.KeyIndexes.{IsKeyIndex};
ghost use Rattle.cops_audit.specs.Placing.{ArePutPlaces, AreSourcePlaces};
ghost use Rattle.cops_audit.specs.Summaries.{AreSummarized, IsSummarized};
ghost use Rattle.cops_audit.specs.Tables.{IsVersionTable};

use crate::analysis::PutIndex;
use crate::flat::{FlatSummaries, Halves};
use crate::key_index::KeyIndex;
use std::alloc::{AllocError, Global};
use std::thread;
use std::thread::Threads;

/// The least number of threads with which the puts are listed by their keys in parallel with the causal summaries.
const THREADS_FOR_KEYS: u8 = 3;

/// The causal summaries of all operations: those of the first half of the clients, built in parallel with those of the
/// others.
fn summaries_in_halves<R: Threads + Sync>(
    rt: &R,
    alloc: Global,
    index: &PutIndex,
) -> Result<Halves, AllocError>
    requires { IsPutIndex index.now }
    ensures { IfOk result (IsSummarized index.now.history.now.sessions index.now.table.now) }
{
    let clients = index.history.clients();
    let mid = clients / 2;
    let (history, table) = (index.history, index.table);
    let (places, sources) = (index.places, index.sources);
    let (low, high) = thread::join(
        rt,
        || -> Result<FlatSummaries, AllocError>
            requires table { IsVersionTable history.now.sessions table.now }
            requires places { ArePutPlaces history.now.puts table.now places.now }
            requires sources { AreSourcePlaces history.now table.now sources.now }
            requires inside { mid ≤ length history.now.sessions }
            ensures { IfOk result (λ low. AreSummarized history.entry.now.sessions table.entry.now 0 mid low.sessions) }
        {
            FlatSummaries::on_clients(
                alloc,
                &PutIndex {
                    history,
                    table,
                    places,
                    sources,
                },
                0,
                mid,
            )
        },
        || -> Result<FlatSummaries, AllocError>
            requires table { IsVersionTable history.now.sessions table.now }
            requires places { ArePutPlaces history.now.puts table.now places.now }
            requires sources { AreSourcePlaces history.now table.now sources.now }
            requires inside { (mid ≤ clients) × (clients ≤ length history.now.sessions) }
            ensures { IfOk result (λ high. AreSummarized history.entry.now.sessions table.entry.now mid clients high.sessions) }
        {
            FlatSummaries::on_clients(
                alloc,
                &PutIndex {
                    history,
                    table,
                    places,
                    sources,
                },
                mid,
                clients,
            )
        },
    );
    Ok(Halves::of(low?, high?))
}

/// The causal summaries, in two halves, built in parallel with the list of the puts by their keys.
fn summaries_parallel_to_keys<R: Threads + Sync>(
    rt: &R,
    alloc: Global,
    index: &PutIndex,
) -> Result<(Halves, KeyIndex), AllocError>
    requires { IsPutIndex index.now }
    ensures summaries { IfOk result (λ r. IsSummarized index.now.history.now.sessions index.now.table.now r.0) }
    ensures keys { IfOk result (λ r. IsKeyIndex index.now.history.now index.now.table.now r.1) }
{
    let (history, table) = (index.history, index.table);
    let (places, sources) = (index.places, index.sources);
    let (summaries, keys) = thread::join(
        rt,
        || -> Result<Halves, AllocError>
            requires table { IsVersionTable history.now.sessions table.now }
            requires places { ArePutPlaces history.now.puts table.now places.now }
            requires sources { AreSourcePlaces history.now table.now sources.now }
            ensures { IfOk result (IsSummarized history.entry.now.sessions table.entry.now) }
        {
            summaries_in_halves(
                rt,
                alloc,
                &PutIndex {
                    history,
                    table,
                    places,
                    sources,
                },
            )
        },
        || -> Result<KeyIndex, AllocError>
            requires table { IsVersionTable history.now.sessions table.now }
            requires places { ArePutPlaces history.now.puts table.now places.now }
            ensures { IfOk result (IsKeyIndex history.entry.now table.entry.now) }
        { KeyIndex::new(alloc, history, table, places) },
    );
    Ok((summaries?, keys?))
}

/// The causal summaries and the list of the puts by their keys, built by at most `threads` threads. With two threads
/// the summaries are built in two halves in parallel; with more, the list is built in parallel with those.
pub fn summaries_and_keys<R: Threads + Sync>(
    rt: &R,
    alloc: Global,
    index: &PutIndex,
    threads: u8,
) -> Result<(Halves, KeyIndex), AllocError>
    requires { IsPutIndex index.now }
    ensures summaries { IfOk result (λ r. IsSummarized index.now.history.now.sessions index.now.table.now r.0) }
    ensures keys { IfOk result (λ r. IsKeyIndex index.now.history.now index.now.table.now r.1) }
{
    if threads >= THREADS_FOR_KEYS {
        return summaries_parallel_to_keys(rt, alloc, index);
    }
    let summaries = if threads < 2 {
        Halves::by_one(alloc, index)?
    } else {
        summaries_in_halves(rt, alloc, index)?
    };
    let keys = KeyIndex::new(alloc, index.history, index.table, index.places)?;
    Ok((summaries, keys))
}
