//! The entries of all books, in order of their tickets.
ghost use Rattle.std.specs.Prelude.{◌≡◌, ◌<◌, ◌≤◌, ◌+◌, ◌*◌, ◌++◌, length, map, All, AllPairs, IfOk, OnOk};
ghost use Rattle.std.specs.List.Sorted.{IsPermutation};
ghost use Rattle.cops_tie.specs.Tie.{placed, ticket};
ghost use Rattle.cops_tie.specs.Ticketed.{HasItsTicket, shown};

use cops_node::Entry;
use std::alloc::{AllocError, Global};

/// An entry of the book of the node at a place of a data centre, with its ticket, so that sorting need not look into
/// the entry.
#[derive(Clone, Copy)]
pub struct Ticketed<'a> {
    pub dc: u8,
    pub place: u8,
    pub ticket: u64,
    pub entry: &'a Entry,
}

/// The entries of books, sorted by ticket. There is one book for each node, in order of node numbers. Returns
/// `AllocError` when memory runs out.
pub fn in_order<'a>(
    alloc: Global,
    dcs: u8,
    nodes: u8,
    books: &'a [Vec<Entry>],
) -> Result<Vec<Ticketed<'a>>, AllocError>
    requires nodes { 0 < nodes }
    requires books { length books.now ≡ dcs * nodes }
    ensures all { IfOk result (λ order. IsPermutation (placed nodes 0 (map (λ b. b.items) books.now)) (map shown order.items)) }
    ensures never_falls { IfOk result (λ order. AllPairs (λ p q. ticket p ≤ ticket q) (map shown order.items)) }
{
    let mut order = Vec::new(alloc);
    for n in 0..books.len() {
        let dc = n / nodes as usize;
        let place = n % nodes as usize;
        add_book(&mut order, dc as u8, place as u8, &books[n])?;
    }
    order.sort_by_key(|entry| entry.ticket)?;
    Ok(order)
}

/// Adds the entries of one book.
fn add_book<'a>(
    entries: &mut Vec<Ticketed<'a>>,
    dc: u8,
    place: u8,
    book: &'a [Entry],
) -> Result<(), AllocError>
    ensures entries { OnOk result (map shown entries.new.items ≡ map shown entries.old.items ++ map (λ e. record { dc = dc; place = place; entry = e }) book.now) }
    ensures tickets { OnOk result (All HasItsTicket entries.old.items → All HasItsTicket entries.new.items) }
{
    entries.reserve(book.len())?;
    for entry in book {
        entries.push(Ticketed {
            dc,
            place,
            ticket: entry.ticket,
            entry,
        })?;
    }
    Ok(())
}
