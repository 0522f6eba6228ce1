use cops_types::{History, OpName};

/// The names of operations of a history, in their order: at most `left` of those from the operation `index` of a client
/// on.
#[derive(Drop)]
pub struct Names<'a> {
    history: &'a History,
    client: u16,
    index: u32,
    left: usize,
}

impl<'a> Names<'a> {
    ghost use Rattle.std.specs.Prelude.{◌≡◌, ◌<◌, ◌+◌, [], IsTrue, length, slice_index_or, slice_range};
    ghost use Rattle.cops_types.specs.declared.limits.TheConstants.{MAX_CLIENT_OPS};
    ghost use Rattle.cops_types.specs.Counts.{count_of};
    ghost use Rattle.cops_audit.specs.Names.{names_left, names_of, names_on};

    /// The names of `len` operations, from the place `start` on.
    pub fn range(history: &'a History, start: usize, len: usize) -> Self
        ensures { names_left result ≡ slice_range (names_of history.now.sessions) start (start + len) }
    {
        let mut index = start;
        for client in 0..history.clients() {
            let client = client as u16;
            let count = history.session_len(client);
            if index < count {
                return Names {
                    history,
                    client,
                    index: index as u32,
                    left: len,
                };
            }
            index -= count;
        }
        Names {
            history,
            client: 0,
            index: 0,
            left: 0,
        }
    }

    /// The names of all operations.
    pub fn all(history: &'a History) -> Self
        ensures names { names_left result ≡ names_of history.now.sessions }
        ensures count { length (names_of history.now.sessions) ≡ count_of history.now.sessions }
    {
        Names::range(history, 0, history.len())
    }

    /// No fewer than the names that are left.
    pub fn most(&self) -> usize {
        self.left
    }

    /// Goes on to the next operation, where a session is at its end. Returns whether there is one.
    #[inline(always)]
    fn go_on(&mut self) -> bool
        ensures left { self.new.left ≡ self.old.left }
        ensures there { IsTrue result → self.new.index < length (slice_index_or self.new.history.now.sessions self.new.client []) }
        ensures small { IsTrue result → self.new.index < MAX_CLIENT_OPS }
        ensures same { IsTrue result → names_on self.new ≡ names_on self.old }
        ensures none { ¬ IsTrue result → names_on self.old ≡ [] }
    {
        for client in self.client as usize..self.history.clients() {
            self.client = client as u16;
            if (self.index as usize) < self.history.session_len(self.client) {
                return true;
            }
            self.index = 0;
        }
        false
    }
}

impl<'a> Iterator for Names<'a> {
    ghost use Rattle.std.specs.Iterator.{YieldsFirst, item_count};
    ghost use Rattle.cops_audit.specs.Names.{names_left};

    type Item = OpName;

    ghost next_gives = { YieldsFirst names_left };

    ghost remaining = { item_count names_left };

    #[inline(always)]
    fn next(&mut self) -> Option<OpName> {
        if self.left == 0 {
            return None;
        }
        if !self.go_on() {
            self.left = 0;
            return None;
        }
        let name = OpName {
            client: self.client,
            index: self.index,
        };
        self.index += 1;
        self.left -= 1;
        Some(name)
    }
}
