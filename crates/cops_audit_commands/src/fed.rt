//! An auditor that takes a trace while it is read.
ghost use Rattle.std.specs.Prelude.{◌≡◌};

use cops_audit::Online;
use cops_trace::Sink;
use cops_types::{Format, Memory, OpView};
use std::alloc::Global;

/// An auditor of a trace.
#[derive(Drop)]
pub(crate) struct Fed {
    online: Online,
}

impl Fed {
    ghost use Rattle.std.specs.Prelude.{◌≡◌};
    ghost use Rattle.cops_trace.specs.Text.{ATrace, sessions_of};
    ghost use Rattle.cops_audit_commands.specs.Fed.{WasFed};

    /// The auditor.
    pub(crate) fn into_online(self) -> Online
        ensures { (t : ATrace) → WasFed self t → result ≡ sessions_of t }
    {
        let Fed { online } = self;
        online
    }
}

impl Sink for Fed {
    ghost use Rattle.cops_audit_commands.specs.Fed.{WasFed};

    ghost took = { WasFed };

    fn begin(_format: Format, alloc: Global, clients: u16) -> Result<Fed, Memory> {
        let online = Online::new(alloc, clients)?;
        Ok(Fed { online })
    }

    fn take(&mut self, client: u16, op: &OpView<'_>) -> Result<(), Memory> {
        match self.online.feed_borrowed(client, op) {
            Ok(()) => Ok(()),
            // The auditor takes as many operations as a trace has, so the only error is out of memory, though this is
            // not proved.
            Err(_) => Err(Memory),
        }
    }

    fn looks_ahead(&self) -> bool {
        self.online.looks_ahead()
    }

    fn prefetch(&mut self, coming: &[OpView<'_>]) {
        self.online.prefetch(coming);
    }
}
