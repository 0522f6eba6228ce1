//! Consumers of a trace while it is read.
ghost use Rattle.std.specs.Prelude.{◌≡◌};

use crate::trace::Trace;
use cops_types::{Format, Memory, OpView, TypeFault};
use std::alloc::Global;

/// A consumer of a trace: it takes the head and then the records, one after the other.
pub trait Sink: Drop {
    ghost use Rattle.std.specs.Prelude.{[], IfOk, OnOk};
    ghost use Rattle.cops_trace.specs.Text.{ATrace};
    ghost use Rattle.cops_trace.specs.Kept.{MayHave, grown};
    ghost use Rattle.cops_types.specs.OpViews.{viewed};

    /// The sink took the head and the records of this trace, and no more.
    ghost took: { Self → ATrace → Type 0 };

    /// Takes a head with a format and a number of clients. Fails if memory runs out.
    fn begin(format: Format, alloc: Global, clients: u16) -> Result<Self, Memory>
        ensures { IfOk result (λ sink. took sink (record { format = format; clients = clients; records = [] })) };

    /// Takes a record: a client's next operation, of the head's format, borrowed from its bytes. Fails if memory runs
    /// out.
    fn take(&mut self, client: u16, op: &OpView<'_>) -> Result<(), Memory>
        requires { (t : ATrace) × took self.old t × MayHave t (record { client = client; op = viewed op.now }) }
        ensures { (t : ATrace) → took self.old t → OnOk result (took self.new (grown t (record { client = client; op = viewed op.now }))) };

    /// Whether prefetching for coming operations is useful.
    fn looks_ahead(&self) -> bool;

    /// Prefetches what these operations need, on the assumption that they come next and in this order.
    fn prefetch(&mut self, coming: &[OpView<'_>])
        ensures { (t : ATrace) → took self.old t → took self.new t };
}

/// The sink that took the whole records of a text, and the offset at which the text is cut, if it is cut.
#[derive(Drop)]
pub struct SinkTaken<S: Drop> {
    pub sink: S,
    pub cut: Option<u64>,
}

/// A trace is a sink that stores the records.
impl Sink for Trace {
    ghost took = { λ trace t. trace ≡ t };

    fn begin(format: Format, alloc: Global, clients: u16) -> Result<Trace, Memory> {
        Trace::new_in(format, alloc, clients)
    }

    fn take(&mut self, client: u16, op: &OpView<'_>) -> Result<(), Memory> {
        match self.push_borrowed(client, op) {
            Ok(()) => Ok(()),
            Err(TypeFault::Memory) => Err(Memory),
            Err(_) => unreachable!(),
        }
    }

    fn looks_ahead(&self) -> bool {
        Trace::looks_ahead(self)
    }

    fn prefetch(&mut self, coming: &[OpView<'_>]) {
        Trace::prefetch(self, coming);
    }
}
