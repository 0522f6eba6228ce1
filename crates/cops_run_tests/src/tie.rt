use cops_node::{NodeEvent, Outcome};
use cops_testing::pair;
use cops_tie::Book;
use cops_types::{Deps, Refusal, TypeFault};
use std::alloc::Global;
use std::test::Fail;

fn put(alloc: Global) -> Result<NodeEvent, TypeFault> {
    let deps = Deps::new(Vec::new(alloc))?;
    let (key, value) = pair(alloc, b"x", b"1")?;
    Ok(NodeEvent::Put {
        client: 0,
        key,
        value,
        deps,
    })
}

/// The event, even if one allocation fails.
fn surely(alloc: Global) -> Result<NodeEvent, TypeFault> {
    match put(alloc) {
        Err(TypeFault::Memory) => put(alloc),
        made => made,
    }
}

/// Whether an allocation failed. Drops the outcome.
fn is_refused(outcome: Outcome) -> bool {
    let is_refused = matches!(&outcome, Outcome::Refused(Refusal::Memory));
    drop(outcome);
    is_refused
}

/// Whether a put is entered. Where an allocation fails, that makes no entry, and the put is tried a second time.
fn is_entered(alloc: Global, book: &mut Book, ticket: u64) -> Result<bool, TypeFault> {
    let before = book.entries().len();
    let event = surely(alloc)?;
    if !is_refused(book.step(ticket, event)) {
        return Ok(book.entries().len() == before + 1);
    }
    let is_same = book.entries().len() == before;
    let event = surely(alloc)?;
    Ok(is_same && !is_refused(book.step(ticket, event)))
}

/// Whether ten puts are entered, after which the node's clock is 10.
fn are_entered(alloc: Global, book: &mut Book) -> Result<bool, TypeFault> {
    for ticket in 0..10 {
        if !is_entered(alloc, book, ticket)? {
            return Ok(false);
        }
    }
    Ok(book.node().status().clock == 10)
}

/// Holds whichever single allocation fails: no entry is made, and the event can be taken again.
#[test]
fn a_refused_allocation_changes_nothing(rt: HostRuntime) -> Result<(), Fail> {
    let mut book = Book::open(rt.alloc(), 0);
    let are_entered = are_entered(rt.alloc(), &mut book);
    drop(book);
    assert!(rt; are_entered?);
    Ok(())
}
