//! The session of one client of a history.
ghost use Rattle.std.specs.Prelude.{◌≡◌, length, slice_get};
ghost use Rattle.std.specs.Option.{option_map};
ghost use Rattle.cops_types.specs.OpRefs.{seen};
ghost use Rattle.cops_types.specs.SessionRefs.{operations_left};

use crate::history::History;
use crate::op::OpName;
use crate::op_ref::OpRef;
use std::marker::Model;

/// The operations of one client in their order, borrowed from a history. It is empty if the history has no such client.
#[derive(Debug, Drop)]
pub struct SessionRef<'a> {
    history: &'a History,
    client: u16,
}

impl<'a> Model for SessionRef<'a> {
    ghost use Rattle.std.specs.Prelude.{List, [], slice_index_or};
    ghost use Rattle.cops_types.specs.Histories.{Operation};

    ghost Value = { List Operation };

    ghost view = { λ s. slice_index_or s.history.now.sessions s.client [] };
}

impl<'a> SessionRef<'a> {
    ghost use Rattle.std.specs.Prelude.{◌≡◌, ◌≤◌, [], length, slice_get, slice_index_or, ◌==◌};
    ghost use Rattle.std.specs.Option.{option_map};
    ghost use Rattle.cops_types.specs.OpRefs.{seen};
    ghost use Rattle.cops_types.specs.SessionRefs.{operations_left};
    ghost use Rattle.cops_types.specs.declared.limits.TheConstants.{MAX_CLIENT_OPS};

    pub(crate) fn new(history: &'a History, client: u16) -> SessionRef<'a>
        ensures { result ≡ slice_index_or history.now.sessions client [] }
    {
        SessionRef { history, client }
    }

    /// How many operations the session has, at most 1,000,000.
    pub fn len(&self) -> usize
        ensures count { result ≡ length self.now }
        ensures limit { result ≤ MAX_CLIENT_OPS }
    {
        self.history.session_len(self.client)
    }

    /// Whether the session has no operation.
    pub fn is_empty(&self) -> bool
        ensures { result ≡ (length self.now == 0) }
    {
        self.len() == 0
    }

    /// The operation at an index, if there is one.
    pub fn get(&self, index: u32) -> Option<OpRef<'a>>
        ensures { option_map seen result ≡ slice_get self.now index }
    {
        let client = self.client;
        self.history.op(OpName { client, index })
    }

    /// The operations in their order.
    pub fn iter(&self) -> Operations<'a>
        ensures { operations_left result ≡ self.now }
    {
        Operations {
            history: self.history,
            client: self.client,
            next: 0,
        }
    }
}

/// An iterator over the operations of a session.
#[derive(Debug, Drop)]
pub struct Operations<'a> {
    pub(crate) history: &'a History,
    pub(crate) client: u16,
    pub(crate) next: u32,
}

impl<'a> Iterator for Operations<'a> {
    ghost use Rattle.std.specs.Iterator.{YieldsFirstBy, item_count};
    ghost use Rattle.cops_types.specs.OpRefs.{seen};
    ghost use Rattle.cops_types.specs.SessionRefs.{operations_left};

    type Item = OpRef<'a>;

    ghost next_gives = { YieldsFirstBy seen operations_left };

    ghost remaining = { item_count operations_left };

    fn next(&mut self) -> Option<OpRef<'a>> {
        let name = OpName {
            client: self.client,
            index: self.next,
        };
        match self.history.op(name) {
            Some(op) => {
                self.next += 1;
                Some(op)
            }
            None => None,
        }
    }
}
