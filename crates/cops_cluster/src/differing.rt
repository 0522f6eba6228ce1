//! Comparing the entries of books with those of shares.
ghost use Rattle.std.specs.Prelude.{◌≡◌, ◌≤◌, ◌<◌, ◌+◌, ◌++◌, length, map, take, drop, IfOk, IfSome, IfNone, OnOk, IsFalse, IsTrue, slice_index_or};
ghost use Rattle.std.specs.List.{Contains};
ghost use Rattle.std.specs.List.Sorted.{IsNonDecreasingBy, IsPermutation};
ghost use Rattle.cops_types.specs.declared.limits.TheConstants.{NODES, PLACES};
ghost use Rattle.cops_cluster.specs.Close.{entries_at, made_by, made_in, number_of, reported};
ghost use Rattle.cops_cluster.specs.Shares.{made};
ghost use Rattle.cops_cluster.specs.declared.logged.LoggedEntry.{LoggedEntry};
ghost use Rattle.cops_cluster.specs.Differences.{Compares, IsLeastDifference};
ghost use Rattle.cops_cluster.specs.Differing.{shown, ticket_of};

use crate::closing::number_at;
use crate::logged::LoggedEntry;
use crate::share::Share;
use cops_node::{Book, Entry};
use std::alloc::{AllocError, Global};

/// The least ticket at which the entries of the books and of the shares differ, if `compares` is set. `None` if it is
/// not, and where both have the same entries, as multisets.
pub(crate) fn difference_where(
    compares: bool,
    alloc: Global,
    places: usize,
    books: &[Book],
    shares: &[Share],
) -> Result<Option<u64>, AllocError>
    requires places { 0 < places × places ≤ PLACES }
    requires few { length books.now ≤ NODES }
    ensures some { IfOk result (λ o. IfSome o (IsLeastDifference (made_by places 0 books.now) (reported shares.now))) }
    ensures none { IfOk result (λ o. IfNone o (IsTrue compares → IsPermutation (made_by places 0 books.now) (reported shares.now))) }
    ensures compared { IfOk result (λ o. IfSome o (λ _. IsTrue compares)) }
{
    if !compares {
        return Ok(None);
    }
    let kept = kept_in(alloc, places, books)?;
    let heard = reported_in(alloc, shares)?;
    compared(kept, heard)
}

/// The least ticket at which the entries of the lists and of the shares differ; `None` where both have the same
/// entries, as multisets. There is one list for each node in order of node numbers, and each data centre has `places`
/// nodes. Returns `AllocError` when memory runs out.
pub fn difference_of_lists(
    alloc: Global,
    places: u8,
    lists: &[Vec<Entry>],
    shares: &[Share],
) -> Result<Option<u64>, AllocError>
    requires places { (0 < places) × (places ≤ PLACES) }
    requires few { length lists.now ≤ NODES }
    ensures { IfOk result (Compares (made_in places 0 lists.now) (reported shares.now)) }
{
    compared(
        listed_in(alloc, usize::from(places), lists)?,
        reported_in(alloc, shares)?,
    )
}

/// The least ticket at which two lists differ; `None` where they are equal as multisets.
fn compared(
    kept: Vec<LoggedEntry<'_>>,
    heard: Vec<LoggedEntry<'_>>,
) -> Result<Option<u64>, AllocError>
    ensures { IfOk result (Compares (map shown kept.entry.items) (map shown heard.entry.items)) }
{
    let mut kept = kept;
    let mut heard = heard;
    kept.sort_by_key(|logged| logged.ticket)?;
    heard.sort_by_key(|logged| logged.ticket)?;
    Ok(first_difference(&kept, &mut heard))
}

/// The entries of the lists, each with its node.
fn listed_in<'a>(
    alloc: Global,
    places: usize,
    lists: &'a [Vec<Entry>],
) -> Result<Vec<LoggedEntry<'a>>, AllocError>
    requires places { 0 < places × places ≤ PLACES }
    requires few { length lists.now ≤ NODES }
    ensures { IfOk result (λ all. map shown all.items ≡ made_in places 0 lists.now) }
{
    let mut all = Vec::new(alloc);
    for n in 0..lists.len() {
        add_entries(&mut all, number_at(places, n) as u16, &lists[n])?;
    }
    Ok(all)
}

/// The entries of the books, each with its node.
fn kept_in<'a>(
    alloc: Global,
    places: usize,
    books: &'a [Book],
) -> Result<Vec<LoggedEntry<'a>>, AllocError>
    requires places { 0 < places × places ≤ PLACES }
    requires few { length books.now ≤ NODES }
    ensures { IfOk result (λ all. map shown all.items ≡ made_by places 0 books.now) }
{
    let mut all = Vec::new(alloc);
    for n in 0..books.len() {
        add_book(&mut all, places, n, &books[n])?;
    }
    Ok(all)
}

/// Adds the entries of `book`, if it belongs to the nth node.
fn add_book<'a>(
    all: &mut Vec<LoggedEntry<'a>>,
    places: usize,
    n: usize,
    book: &'a Book,
) -> Result<(), AllocError>
    requires places { 0 < places × places ≤ PLACES }
    requires few { n < NODES }
    ensures { OnOk result (map shown all.new.items ≡ map shown all.old.items ++ map (made (number_of places n)) (entries_at places n book.now)) }
{
    let node = book.node().number();
    if usize::from(node) == number_at(places, n) {
        add_entries(all, node, book.entries())?;
    }
    Ok(())
}

fn add_entries<'a>(
    all: &mut Vec<LoggedEntry<'a>>,
    node: u16,
    entries: &'a [Entry],
) -> Result<(), AllocError>
    ensures { OnOk result (map shown all.new.items ≡ map shown all.old.items ++ map (made node) entries.now) }
{
    all.reserve(entries.len())?;
    for entry in entries {
        all.push(LoggedEntry::new(entry, node))?;
    }
    Ok(())
}

/// The entries of the shares.
fn reported_in<'a>(alloc: Global, shares: &'a [Share]) -> Result<Vec<LoggedEntry<'a>>, AllocError>
    ensures { IfOk result (λ all. map shown all.items ≡ reported shares.now) }
{
    let mut all = Vec::new(alloc);
    for share in shares {
        add_share(&mut all, share)?;
    }
    Ok(all)
}

/// Adds the entries of one share.
fn add_share<'a>(all: &mut Vec<LoggedEntry<'a>>, share: &'a Share) -> Result<(), AllocError>
    ensures { OnOk result (map shown all.new.items ≡ map shown all.old.items ++ share.now.entries.items) }
{
    all.reserve(share.entries.len())?;
    for made in &share.entries {
        all.push(LoggedEntry::new(&made.entry, made.node))?;
    }
    Ok(())
}

/// The least ticket at which two lists sorted by ticket differ. Entries of one ticket may come in any order.
fn first_difference(kept: &[LoggedEntry<'_>], heard: &mut [LoggedEntry<'_>]) -> Option<u64>
    requires kept { IsNonDecreasingBy ticket_of kept.now }
    requires heard { IsNonDecreasingBy ticket_of heard.old }
    ensures { Compares (map shown kept.now) (map shown heard.old) result }
{
    let both = kept.len().min(heard.len());
    for i in 0..both {
        let logged = &kept[i];
        let ticket = heard[i].ticket;
        if ticket < logged.ticket {
            return Some(ticket);
        }
        if !bring(logged, heard, i) {
            return Some(logged.ticket);
        }
    }
    if both < kept.len() {
        return Some(kept[both].ticket);
    }
    if both < heard.len() {
        return Some(heard[both].ticket);
    }
    None
}

/// Searches the entries with this ticket, from place `i` on, for one equal to `logged`, and swaps it to place `i`.
/// Returns whether it was found.
fn bring(logged: &LoggedEntry<'_>, heard: &mut [LoggedEntry<'_>], i: usize) -> bool
    requires place { i < length heard.old }
    requires sorted { IsNonDecreasingBy ticket_of heard.old }
    requires behind { (d : LoggedEntry) → ticket_of logged.now ≤ ticket_of (slice_index_or heard.old i d) }
    ensures order { IsPermutation heard.old heard.new }
    ensures sorted { IsNonDecreasingBy ticket_of heard.new }
    ensures before { take i heard.new ≡ take i heard.old }
    ensures len { length heard.new ≡ length heard.old }
    ensures found { IsTrue result → (d : LoggedEntry) × ((slice_index_or heard.new i d ≡ d) × (shown d ≡ shown logged.now)) }
    ensures missing { IsFalse result → Contains (drop i (map shown heard.old)) (shown logged.now) → ⊥ }
{
    for j in i..heard.len() {
        if heard[j].ticket != logged.ticket {
            return false;
        }
        if heard[j].is(logged) {
            heard.swap(i, j);
            return true;
        }
    }
    false
}
