ghost use Rattle.std.specs.Prelude.{◌≡◌};

use cops_context::Context;
use cops_types::{Dep, Deps, Format, Memory};
use std::alloc::Global;
use std::marker::Model;

/// The context of each client. Each can hold as many pairs as any format allows; the calls that add pairs take the
/// world's format, which limits them.
#[derive(Drop)]
pub struct ClientContexts {
    contexts: Vec<Context>,
}

impl Model for ClientContexts {
    ghost use Rattle.std.specs.Prelude.{map};
    ghost use Rattle.cops_core.specs.Parts.{AllContexts, AreWidest};

    ghost Value = { AllContexts };

    ghost view = { λ c. record { pairs = map (λ x. x.pairs) c.contexts.items; room = map (λ x. x.room) c.contexts.items } };

    ghost invariant = { λ c. AreWidest c.contexts.items };
}

impl ClientContexts {
    ghost use Rattle.std.specs.Prelude.{◌≡◌, ◌≢◌, ◌<◌, [], ◌∷◌, IfOk, OnOk, OnErr, length, nat_lt, replicate, slice_index_or, slice_set};
    ghost use Rattle.cops_types.specs.Format.{most_deps};
    ghost use Rattle.cops_context.specs.Context.{with_pair};
    ghost use Rattle.cops_core.specs.Parts.{HasPlace};

    /// An empty context for each of `clients` clients. Fails if memory runs out.
    pub fn new(alloc: Global, clients: u16) -> Result<Self, Memory>
        ensures { IfOk result (λ c. c.pairs ≡ replicate clients []) }
    {
        let mut contexts = Vec::new(alloc);
        for _ in 0..clients {
            contexts.push(Context::new_in(Format::Two, alloc))?;
        }
        Ok(ClientContexts { contexts })
    }

    /// How many clients there are.
    pub fn len(&self) -> usize
        ensures { result ≡ length self.now.pairs }
    {
        self.contexts.len()
    }

    /// Copies of a client's pairs. Fails if memory runs out, but not if there are no pairs.
    pub fn deps(&self, client: u16) -> Result<Deps, Memory>
        requires { client < length self.now.pairs }
        ensures ok { IfOk result (λ deps. deps ≡ slice_index_or self.now.pairs client []) }
        ensures err { OnErr result (slice_index_or self.now.pairs client [] ≢ []) }
    {
        let context = &self.contexts[client as usize];
        context.deps()
    }

    /// Whether a client has fewer pairs than the format's limit.
    pub fn has_room(&self, format: Format, client: u16) -> bool
        requires { client < length self.now.pairs }
        ensures { result ≡ nat_lt (length (slice_index_or self.now.pairs client [])) (most_deps format) }
    {
        let context = &self.contexts[client as usize];
        context.len() < format.most_deps()
    }

    /// Makes room for a client's next pair. Changes no context if memory runs out.
    pub fn reserve(&mut self, client: u16) -> Result<(), Memory>
        requires { client < length self.old.pairs }
        ensures same { self.new.pairs ≡ self.old.pairs }
        ensures room { OnOk result (HasPlace self.new client) }
    {
        let context = &mut self.contexts[client as usize];
        context.reserve()
    }

    /// Adds a pair to a client's context, which has fewer than the format's limit. Room has to be reserved.
    pub fn add(&mut self, format: Format, client: u16, pair: Dep)
        requires known { client < length self.old.pairs }
        requires few { length (slice_index_or self.old.pairs client []) < most_deps format }
        requires room { HasPlace self.old client }
        ensures { self.new.pairs ≡ slice_set self.old.pairs client (with_pair (slice_index_or self.old.pairs client []) pair) }
    {
        let context = &mut self.contexts[client as usize];
        let _most = format.most_deps();
        context.add(pair).unwrap()
    }

    /// Replaces a client's context by the pair of its new put.
    pub fn replace(&mut self, client: u16, put: Dep)
        requires { client < length self.old.pairs }
        ensures { self.new.pairs ≡ slice_set self.old.pairs client (put ∷ []) }
    {
        let context = &mut self.contexts[client as usize];
        context.replace(put);
    }
}
