//! Reading the items of a trace's text that comes in pieces.
ghost use Rattle.std.specs.Prelude.{◌≡◌, ℕ, OnErr, OnOk};
ghost use Rattle.cops_types.specs.declared.format.Format.{Format as AFormat};
ghost use Rattle.cops_trace.specs.Reading.{ItemHasTurn, counts_with, is_end};

use crate::ahead::{see_ahead, take_ahead};
use crate::counts::Counts;
use crate::fault::TraceFault;
use crate::finding::{first_found, later_found};
use crate::found::{Found, Item};
use crate::parser::prefetch;
use crate::sink::Sink;
use cops_types::Memory;
use cops_wire::Buffer;
use std::alloc::Global;
use std::marker::Model;

/// Reads the items of a trace's text that comes in pieces: the head, the records one after the other, and the end. It
/// keeps the bytes that are not read yet (the rest), and only counts of the items that it returned.
#[derive(Debug, Drop)]
pub struct TraceReader {
    alloc: Global,
    buffer: Buffer,
    counts: Option<Counts>,
    at: u64,
    ended: bool,
    fault: Option<TraceFault>,
}

impl Model for TraceReader {
    ghost use Rattle.cops_trace.specs.Reading.{IsStoppedBy, IsWithinReach, Reading};

    ghost Value = { Reading };

    ghost view = { λ r. record { counts = r.counts; at = r.at; ended = r.ended; rest = r.buffer; fault = r.fault } };

    ghost invariant = { λ r.
        IsWithinReach r.counts r.ended r.at
        × IsStoppedBy (record { counts = r.counts; at = r.at; ended = r.ended; rest = r.buffer; fault = r.fault }) r.fault };
}

impl TraceReader {
    ghost use Rattle.std.specs.Prelude.{◌≡◌, ◌<◌, ◌≤◌, ◌++◌, [], None, false, true, length, IfOk, IfSome, IsTrue, OnErr, OnOk, Err};
    ghost use Rattle.cops_trace.specs.Ahead.{GoesOn};
    ghost use Rattle.cops_trace.specs.Next.{Stands, format_next};
    ghost use Rattle.cops_trace.specs.Reading.{GivesNext, closing, progress_so_far};
    ghost use Rattle.cops_trace.specs.Parsing.{IsUnderway};
    ghost use Rattle.cops_wire.specs.Answer.{BeginsWithTaking};
    ghost use Rattle.cops_wire.specs.Grammar.{grammar};

    /// A reader that was fed nothing. Allocates nothing.
    pub fn new(alloc: Global) -> Self
        ensures { result ≡ record { counts = None; at = 0; ended = false; rest = []; fault = None } }
    {
        TraceReader {
            alloc,
            buffer: Buffer::new(alloc),
            counts: None,
            at: 0,
            ended: false,
            fault: None,
        }
    }

    /// Appends a piece to the rest. Changes nothing if memory runs out.
    pub fn feed(&mut self, piece: &[u8]) -> Result<(), Memory>
        ensures ok { OnOk result (self.new ≡ record self.old { rest = self.old.rest ++ piece.now }) }
        ensures err { OnErr result (self.new ≡ self.old) }
    {
        self.buffer.feed(piece)?;
        Ok(())
    }

    /// Removes the item at the front of the rest and returns it, or returns nothing if no whole item is there. A fault
    /// is returned again by every later call, except `Memory`, which changes nothing: it comes only if reading the next
    /// item allocates, for a key or a value of a record, or for the counts of a head's clients.
    pub fn next(&mut self) -> Result<Option<Item>, TraceFault>
        ensures next { GivesNext self.old result self.new }
        ensures again { IfSome self.old.fault (λ fault. result ≡ Err fault) }
    {
        if let Some(fault) = self.fault {
            return Err(fault);
        }
        if self.ended {
            return self.after_end();
        }
        match self.found() {
            Ok(Found::Waits) => Ok(None),
            Ok(Found::Fails(fault)) => {
                self.fault = Some(fault);
                Err(fault)
            }
            Ok(Found::Gives { item, used }) => self.give(item, used),
            Err(Memory) => Err(TraceFault::Memory),
        }
    }

    /// The result when no more bytes come: the fault that was returned before; else `Cut` if the end was not returned;
    /// else `BytesAfterEnd` if there is a byte after it.
    pub fn close(&self) -> Result<(), TraceFault>
        ensures { result ≡ closing self.now }
    {
        if let Some(fault) = self.fault {
            return Err(fault);
        }
        let at = self.at;
        if !self.ended {
            return Err(TraceFault::Cut { offset: at });
        }
        if self.buffer.rest().is_empty() {
            Ok(())
        } else {
            Err(TraceFault::BytesAfterEnd { offset: at })
        }
    }

    /// What the rest begins with, before the end. Fails if memory runs out.
    fn found(&self) -> Result<Found, Memory>
        ensures found { IfOk result (Stands (progress_so_far self.now) self.now.rest) }
        ensures memory { OnErr result (BeginsWithTaking (grammar (format_next (progress_so_far self.now))) self.now.rest) }
    {
        let rest = self.buffer.rest();
        match &self.counts {
            None => first_found(self.alloc, rest),
            Some(counts) => later_found(self.alloc, counts, self.at, rest),
        }
    }

    /// Gives the sink the records at the front of the rest that `next` would return, and returns whether there was one.
    /// First it lets a sink that looks ahead prepare for them. If memory runs out, the sink may have taken some of
    /// them, and reading cannot go on.
    pub(crate) fn give_ahead<S: Sink>(&mut self, begun: &mut Option<S>) -> Result<bool, Memory>
        requires { IsUnderway S.took begun.old self.old }
        ensures on { OnOk result (GoesOn S.took begun.old self.old begun.new self.new) }
        ensures less { IfOk result (λ went. IsTrue went → length self.new.rest < length self.old.rest) }
        ensures no_more { OnOk result (length self.new.rest ≤ length self.old.rest) }
    {
        if self.ended || self.fault.is_some() {
            return Ok(false);
        }
        let Some(counts) = &mut self.counts else {
            return Ok(false);
        };
        let ahead = see_ahead(counts.format(), self.alloc, self.buffer.rest());
        prefetch(begun, &ahead.ops);
        let taken = take_ahead(begun, counts, self.at, &ahead);
        drop(ahead);
        let len = taken?;
        self.at += len as u64;
        self.buffer.take(len);
        Ok(len > 0)
    }

    /// Removes the item of `used` bytes at the front of the rest and returns it.
    fn give(&mut self, item: Item, used: usize) -> Result<Option<Item>, TraceFault>
        requires stands { Stands (progress_so_far self.old) self.old.rest (Found.Gives item used) }
        requires open { self.old.ended ≡ false }
        requires fine { self.old.fault ≡ None }
        ensures { GivesNext self.old result self.new }
    {
        match count(self.alloc, &mut self.counts, &item) {
            Ok(()) => {}
            Err(Memory) => {
                drop(item);
                return Err(TraceFault::Memory);
            }
        }
        self.at += used as u64;
        self.ended = is_end(&item);
        self.buffer.take(used);
        Ok(Some(item))
    }

    /// The result after the end: nothing, or a fault if there is a byte.
    fn after_end(&mut self) -> Result<Option<Item>, TraceFault>
        requires ended { self.old.ended ≡ true }
        requires fine { self.old.fault ≡ None }
        ensures { GivesNext self.old result self.new }
    {
        if self.buffer.rest().is_empty() {
            return Ok(None);
        }
        let fault = TraceFault::BytesAfterEnd { offset: self.at };
        self.fault = Some(fault);
        Err(fault)
    }

    /// The number of bytes of the items returned so far, which is the offset of the next item.
    pub(crate) fn at(&self) -> u64
        ensures { result ≡ self.now.at }
    {
        self.at
    }

    /// Whether the end was returned.
    pub(crate) fn has_ended(&self) -> bool
        ensures { result ≡ self.now.ended }
    {
        self.ended
    }
}

/// Whether an item is the end.
fn is_end(item: &Item) -> bool
    ensures { result ≡ is_end item.now }
{
    matches!(item, Item::End)
}

/// Counts an item that is returned. Changes nothing if memory runs out.
fn count(alloc: Global, counts: &mut Option<Counts>, item: &Item) -> Result<(), Memory>
    requires { ItemHasTurn item.now counts.old }
    ensures ok { OnOk result (counts.new ≡ counts_with item.now counts.old) }
    ensures err { OnErr result (counts.new ≡ counts.old) }
    ensures head { OnErr result ((format : AFormat) × (clients : ℕ) × (item.now ≡ Item.Head format clients)) }
{
    match item {
        Item::Head { format, clients } => {
            let begun = Counts::new(*format, alloc, *clients)?;
            drop(counts.replace(begun));
        }
        Item::Op { client, .. } => match counts {
            Some(counts) => counts.add(*client),
            None => unreachable!(),
        },
        Item::End => {}
    }
    Ok(())
}
