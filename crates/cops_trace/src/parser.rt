//! Parsing a trace's text that comes in pieces into a sink.
ghost use Rattle.std.specs.Prelude.{◌≡◌, Option, OnOk};
ghost use Rattle.cops_trace.specs.Parsing.{IsTakenAs, ItemHasRoom, with_item};
ghost use Rattle.cops_trace.specs.Text.{ATrace};
ghost use Rattle.cops_types.specs.OpViews.{op_viewed};

use crate::fault::TraceFault;
use crate::found::Item;
use crate::reader::TraceReader;
use crate::sink::{Sink, SinkTaken};
use cops_types::{Format, Memory, OpView};
use std::alloc::Global;

/// The state of parsing: the sink that took the head and the records so far, and the bytes that are not parsed yet.
#[derive(Drop)]
pub(crate) struct Parser<S: Drop> {
    alloc: Global,
    reader: TraceReader,
    pub(crate) begun: Option<S>,
}

impl<S: Sink> Parser<S> {
    ghost use Rattle.std.specs.Prelude.{◌<◌, ◌++◌, [], None, false, length, IfErr, IfOk, IsTrue, List, ℕ};
    ghost use Rattle.cops_trace.specs.Ahead.{GoesOn};
    ghost use Rattle.cops_trace.specs.Answer.{TakesFrom};
    ghost use Rattle.cops_trace.specs.Parsing.{AdvancesInto, FedInto, IsBegunAs, IsUnderway, SettledInto, StepsInto, Stops, stage_of};

    pub(crate) fn new(alloc: Global) -> Parser<S>
        ensures reader { result.reader ≡ record { counts = None; at = 0; ended = false; rest = []; fault = None } }
        ensures begun { result.begun ≡ None }
    {
        Parser {
            alloc,
            reader: TraceReader::new(alloc),
            begun: None,
        }
    }

    /// Takes the next item, of any kind, and returns whether there was a whole one.
    #[inline(never)]
    fn step_item(&mut self) -> Result<bool, TraceFault>
        requires { IsUnderway S.took self.old.begun self.old.reader }
        ensures { (t : Option ATrace) → IsTakenAs S.took self.old.begun t → IsBegunAs t self.old.reader.counts
            → StepsInto S.took (stage_of t self.old.reader) result self.new.begun self.new.reader }
    {
        let Some(item) = self.reader.next()? else {
            return Ok(false);
        };
        match take(self.alloc, &mut self.begun, item) {
            Ok(()) => Ok(true),
            Err(Memory) => Err(TraceFault::Memory),
        }
    }

    /// Takes the next items, and returns whether there was a whole one: records, borrowed from their bytes, or one item
    /// of any kind.
    fn step(&mut self) -> Result<bool, TraceFault>
        requires { IsUnderway S.took self.old.begun self.old.reader }
        ensures on { IfOk result (λ went. IsTrue went → GoesOn S.took self.old.begun self.old.reader self.new.begun self.new.reader) }
        ensures less { IfOk result (λ went. IsTrue went → length self.new.reader.rest < length self.old.reader.rest) }
        ensures settled { IfOk result (λ went. ¬ IsTrue went → (fed : List ℕ) → FedInto S.took fed self.old.begun self.old.reader → SettledInto S.took fed self.new.begun self.new.reader) }
        ensures err { IfErr result (λ fault. (fed : List ℕ) → FedInto S.took fed self.old.begun self.old.reader → Stops fed fault) }
    {
        match self.reader.give_ahead(&mut self.begun) {
            Ok(true) => Ok(true),
            Ok(false) => self.step_item(),
            Err(Memory) => Err(TraceFault::Memory),
        }
    }

    /// Takes all whole items. Fails if there are bytes after the end.
    fn advance(&mut self) -> Result<(), TraceFault>
        requires { IsUnderway S.took self.old.begun self.old.reader }
        ensures { (fed : List ℕ) → FedInto S.took fed self.old.begun self.old.reader → AdvancesInto S.took fed result self.new.begun self.new.reader }
    {
        while self.step()? {}
        Ok(())
    }

    /// Takes the next piece, and then all whole items.
    pub(crate) fn take_piece(&mut self, piece: &[u8]) -> Result<(), TraceFault>
        requires { IsUnderway S.took self.old.begun self.old.reader }
        ensures { (fed : List ℕ) → FedInto S.took fed self.old.begun self.old.reader
            → AdvancesInto S.took (fed ++ piece.now) result self.new.begun self.new.reader }
    {
        let Ok(()) = self.reader.feed(piece) else {
            return Err(TraceFault::Memory);
        };
        self.advance()
    }

    /// The offset of the next item.
    pub(crate) fn at(&self) -> u64
        ensures { result ≡ self.now.reader.at }
    {
        self.reader.at()
    }

    /// The sink that took the whole records, when no more bytes come, and the offset of the cut if there was no end.
    /// Fails if memory runs out.
    pub(crate) fn closed(self) -> Result<SinkTaken<S>, Memory>
        ensures { (fed : List ℕ) → SettledInto S.took fed self.begun self.reader → IfOk result (TakesFrom S.took fed) }
    {
        let at = self.reader.at();
        let ended = self.reader.has_ended();
        let Parser { alloc, begun, .. } = self;
        match begun {
            Some(sink) if ended => Ok(SinkTaken { sink, cut: None }),
            Some(sink) => Ok(SinkTaken {
                sink,
                cut: Some(at),
            }),
            None => {
                let sink = S::begin(Format::One, alloc, 0)?;
                Ok(SinkTaken {
                    sink,
                    cut: Some(at),
                })
            }
        }
    }
}

/// Gives an item to the sink. It is inlined, since each call would move the item once more.
#[inline(always)]
fn take<S: Sink>(alloc: Global, begun: &mut Option<S>, item: Item) -> Result<(), Memory>
    requires { (t : Option ATrace) × IsTakenAs S.took begun.old t × ItemHasRoom item t }
    ensures { (t : Option ATrace) → IsTakenAs S.took begun.old t → OnOk result (IsTakenAs S.took begun.new (with_item item t)) }
{
    match item {
        Item::Head { format, clients } => begin(format, alloc, begun, clients),
        Item::Op { client, op } => push(begun, client, &op.as_view()),
        Item::End => Ok(()),
    }
}

/// Begins a sink. It is a function of its own, since wherever a sink may be begun the room for it is made and cleared.
#[cold]
#[inline(never)]
fn begin<S: Sink>(
    format: Format,
    alloc: Global,
    begun: &mut Option<S>,
    clients: u16,
) -> Result<(), Memory>
    requires { (t : Option ATrace) × IsTakenAs S.took begun.old t × ItemHasRoom (Item.Head format clients) t }
    ensures { (t : Option ATrace) → IsTakenAs S.took begun.old t → OnOk result (IsTakenAs S.took begun.new (with_item (Item.Head format clients) t)) }
{
    let sink = S::begin(format, alloc, clients)?;
    drop(begun.replace(sink));
    Ok(())
}

/// Lets the sink prepare for coming operations, if that is useful.
pub(crate) fn prefetch<S: Sink>(begun: &mut Option<S>, coming: &[OpView<'_>])
    ensures { (t : Option ATrace) → IsTakenAs S.took begun.old t → IsTakenAs S.took begun.new t }
{
    if let Some(sink) = begun {
        if sink.looks_ahead() {
            sink.prefetch(coming);
        }
    }
}

/// Gives a record to the sink.
#[inline(always)]
pub(crate) fn push<S: Sink>(
    begun: &mut Option<S>,
    client: u16,
    op: &OpView<'_>,
) -> Result<(), Memory>
    requires { (t : Option ATrace) × IsTakenAs S.took begun.old t × ItemHasRoom (Item.Op client (op_viewed op.now)) t }
    ensures { (t : Option ATrace) → IsTakenAs S.took begun.old t → OnOk result (IsTakenAs S.took begun.new (with_item (Item.Op client (op_viewed op.now)) t)) }
{
    match begun {
        Some(sink) => sink.take(client, op),
        None => unreachable!(),
    }
}
