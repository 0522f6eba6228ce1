//! Puts that were delivered and are not settled yet, and the questions to ask about their dependencies.
ghost use Rattle.std.specs.Prelude.{◌≡◌, IfOk, length};

use cops_types::{Dep, Deps, Memory, PutRecord, Version};
use indexmap::IndexMap;
use std::alloc::{AllocError, Global};

/// A put that was delivered and is not settled yet.
#[derive(Drop)]
struct Waiting {
    pair: Dep,
    deps: Deps,
    /// The number of dependencies that are not marked.
    unmarked: usize,
}

/// A question to ask: whether a dependency, given by its index, of the put of this version is settled. A put without
/// dependencies has one question too, which brings the put to its settlement.
#[derive(Clone, Copy)]
pub(crate) struct Question {
    pub(crate) version: Version,
    pub(crate) dep: u16,
}

/// The puts that wait. Each dependency that is not marked yet is in one of two places: in `questions`, or, after the
/// answer Wait, in `parked` under its pair until that pair is settled.
#[derive(Drop)]
pub(crate) struct Backlog {
    waiting: IndexMap<Version, Waiting>,
    /// The questions to ask. The next one is the last.
    questions: Vec<Question>,
    parked: IndexMap<Dep, Vec<Question>>,
    /// The put to settle before anything else.
    ready: Option<Version>,
    alloc: Global,
}

impl Waiting {
    fn of(put: &PutRecord) -> Result<Self, AllocError>
        ensures { IfOk result (λ w. w.unmarked ≡ length put.now.deps) }
    {
        let deps = put.deps.clone()?;
        let unmarked = deps.as_slice().len();
        let pair = Dep {
            key: put.key.clone()?,
            version: put.version,
        };
        Ok(Waiting {
            pair,
            deps,
            unmarked,
        })
    }

    /// The put's first questions, in reverse order: the first one to ask is the last.
    fn questions(&self, alloc: Global) -> Result<Vec<Question>, AllocError> {
        let mut questions = Vec::new(alloc);
        let last = self.deps.as_slice().len().saturating_sub(1);
        for k in 0..=last {
            questions.push(Question {
                version: self.pair.version,
                dep: (last - k) as u16,
            })?;
        }
        Ok(questions)
    }
}

impl Backlog {
    ghost use Rattle.std.specs.Prelude.{◌≡◌, ◌↔◌, IfSome, IsNone, IsTrue, OnOk, Some, length};
    ghost use Rattle.std.specs.Option.{option_map_or};
    ghost use Rattle.cops_replication.specs.Backlog.{next, one_fewer, ready_after, unmarked_of};
    ghost use Rattle.cops_replication.specs.Receiving.{IsSettled};

    pub(crate) fn new(alloc: Global) -> Self {
        Backlog {
            waiting: IndexMap::new(alloc),
            questions: Vec::new(alloc),
            parked: IndexMap::new(alloc),
            ready: None,
            alloc,
        }
    }

    /// Whether no put waits.
    pub(crate) fn is_empty(&self) -> bool
        ensures { IsTrue result ↔ IsSettled self.now }
    {
        self.waiting.is_empty()
    }

    /// Adds a put that waits, unless it is there already. An error, which is `Memory`, leaves the backlog unchanged.
    pub(crate) fn add(&mut self, put: &PutRecord) -> Result<(), Memory>
        ensures unmarked { OnOk result (IsNone (unmarked_of self.old put.now.version) → unmarked_of self.new put.now.version ≡ Some (length put.now.deps)) }
    {
        if self.waiting.contains_key(&put.version) {
            return Ok(());
        }
        let waiting = Waiting::of(put)?;
        let mut questions = match waiting.questions(self.alloc) {
            Ok(questions) => questions,
            Err(_) => {
                drop(waiting);
                return Err(Memory);
            }
        };
        drop(self.waiting.insert(put.version, waiting)?);
        if self.questions.append(&mut questions).is_err() {
            drop(self.waiting.swap_remove(&put.version));
            return Err(Memory);
        }
        Ok(())
    }

    /// The put to settle before anything else.
    pub(crate) fn ready(&self) -> Option<Version> {
        self.ready
    }

    /// The question to ask next.
    pub(crate) fn question(&self) -> Option<Question> {
        Some(*self.questions.last()?)
    }

    /// The pair that the next question is about.
    pub(crate) fn pair(&self) -> Option<&Dep> {
        pair_in(&self.waiting, self.question()?)
    }

    /// Parks the next question after the answer Wait: it is asked again once its pair is settled. An error, which is
    /// `Memory`, leaves the backlog unchanged.
    pub(crate) fn park(&mut self) -> Result<(), Memory> {
        let Some(question) = self.question() else {
            return Ok(());
        };
        let Some(pair) = pair_in(&self.waiting, question) else {
            return Ok(());
        };
        if let Some(parked) = self.parked.get_mut(pair) {
            parked.push(question)?;
        } else {
            let parked = only(self.alloc, question)?;
            let pair = pair.clone()?;
            drop(self.parked.insert(pair, parked)?);
        }
        let _question = self.questions.pop();
        Ok(())
    }

    /// Marks the dependency of the next question. If that was the put's last unmarked dependency, the put is ready to
    /// settle.
    pub(crate) fn mark(&mut self)
        ensures ready { self.new.ready ≡ option_map_or (λ q. ready_after self.old q.version) (next self.old) self.old.ready }
        ensures unmarked { IfSome (next self.old) (λ q. unmarked_of self.new q.version ≡ one_fewer (unmarked_of self.old q.version)) }
    {
        if let Some(question) = self.questions.pop() {
            self.mark_put(question.version);
        }
    }

    /// Marks one dependency of the put of this version.
    fn mark_put(&mut self, version: Version)
        ensures ready { self.new.ready ≡ ready_after self.old version }
        ensures unmarked { unmarked_of self.new version ≡ one_fewer (unmarked_of self.old version) }
    {
        let Some(waiting) = self.waiting.get_mut(&version) else {
            return;
        };
        waiting.unmarked = waiting.unmarked.saturating_sub(1);
        if waiting.unmarked == 0 {
            self.ready = Some(version);
        }
    }

    /// Drops the next question, whose put has no such dependency: the put is ready to settle.
    pub(crate) fn skip(&mut self) {
        if let Some(question) = self.questions.pop() {
            self.ready = Some(question.version);
        }
    }

    /// Moves the questions parked at a put that is about to be settled back to the questions to ask. An error, which is
    /// `Memory`, leaves the backlog unchanged.
    pub(crate) fn wake(&mut self, version: Version) -> Result<(), Memory> {
        let Some(waiting) = self.waiting.get(&version) else {
            return Ok(());
        };
        if let Some(parked) = self.parked.get_mut(&waiting.pair) {
            self.questions.append(parked)?;
        }
        Ok(())
    }

    /// Removes a put that was settled.
    pub(crate) fn settle(&mut self, version: Version) {
        self.ready = None;
        if let Some(waiting) = self.waiting.swap_remove(&version) {
            let _parked = self.parked.swap_remove(&waiting.pair);
        }
    }
}

/// A list of this one question.
fn only(alloc: Global, question: Question) -> Result<Vec<Question>, Memory> {
    let mut questions = Vec::new(alloc);
    questions.push(question)?;
    Ok(questions)
}

/// The pair that a question is about, for a question about one of these puts.
fn pair_in(waiting: &IndexMap<Version, Waiting>, question: Question) -> Option<&Dep> {
    let asked = waiting.get(&question.version)?;
    asked.deps.as_slice().get(usize::from(question.dep))
}
