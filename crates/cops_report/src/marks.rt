use cops_types::{History, OpName};
use std::alloc::{AllocError, Global};
use std::marker::Model;

/// How an operation leads to the one at which the search began: by how many steps, and the first name on the way.
#[derive(Clone, Copy, Debug, PartialEq, Eq)]
pub struct Mark {
    pub steps: u32,
    pub next: OpName,
}

/// For each operation of a history its mark, if it has one.
#[derive(Debug, Drop)]
pub struct Marks {
    sessions: Vec<Vec<Option<Mark>>>,
}

impl Model for Marks {
    ghost use Rattle.std.specs.Prelude.{map};
    ghost use Rattle.cops_report.specs.Marks.{Table};

    ghost Value = { Table };

    ghost view = { λ a. map (λ s. s.items) a.sessions.items };
}

impl Marks {
    ghost use Rattle.cops_types.specs.declared.limits.TheConstants.{MAX_OPS};
    ghost use Rattle.std.specs.Prelude.{◌≡◌, ◌≤◌, IfOk};
    ghost use Rattle.cops_types.specs.Counts.{count_of};
    ghost use Rattle.cops_report.specs.Marks.{mark_at, HasPlace, with_mark, unmarked};

    /// No marks, with a place for each operation.
    pub fn new(alloc: Global, history: &History) -> Result<Self, AllocError>
        ensures unmarked { IfOk result (λ marks. marks ≡ unmarked history.now.sessions) }
        ensures limit { IfOk result (λ _. count_of history.now.sessions ≤ MAX_OPS) }
    {
        let mut sessions = Vec::new(alloc);
        for client in 0..history.clients() {
            let operations = history.session_len(client as u16);
            sessions.push(vec![in alloc; None; operations]?)?;
        }
        Ok(Marks { sessions })
    }

    /// The mark of an operation.
    pub fn get(&self, name: OpName) -> Option<Mark>
        ensures { result ≡ mark_at self.now name }
    {
        let session = self.sessions.get(name.client as usize)?;
        let mark = session.get(name.index as usize)?;
        *mark
    }

    /// Marks an operation.
    pub fn set(&mut self, name: OpName, mark: Mark)
        requires { HasPlace self.old name }
        ensures { self.new ≡ with_mark self.old name mark }
    {
        let session = &mut self.sessions[name.client as usize];
        session[name.index as usize] = Some(mark);
    }
}
