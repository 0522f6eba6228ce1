//! The state of lines that are still being written.
ghost use Rattle.std.specs.Prelude.{IfOk};
ghost use Rattle.cops_check.specs.Check.{IsStateOf};

use crate::check::{checked, imported, lines_in, names_of};
use crate::fault::CheckFault;
use cops_audit::{Verdict, judge};
use cops_audit_commands::{Answer, ExplainedText, Request};
use cops_command::Status;
use cops_explain::{LineNames, NamedHistory, Naming, explain};
use cops_import::{Imported, Names, Outcome, outcome_counts};
use cops_trace::{Trace, read_trace};
use cops_types::{
    Counted, History, Key, MAX_CLIENTS, MAX_OPS, Memory, Op, OpName, OpRef, Selection, Version,
    content_copy,
};
use indexmap::{IndexMap, IndexSet};
use std::alloc::{AllocError, Global};

/// The state of the history that lines describe so far.
#[derive(Debug, PartialEq, Eq, Drop)]
pub enum State {
    /// It is causally convergent.
    Clean,
    /// This number of its gets have no put of their version yet, and further lines can make it causally convergent.
    Waiting(usize),
    /// No further line can make it causally convergent. The text explains the first fault.
    Refused(Vec<u8>),
    /// A line is wrong. The text says which, and what is wrong with it.
    Faulty(Vec<u8>),
}

impl State {
    /// The text that says so, of one line or, where there is a fault, also its explanation. Fails if memory runs out.
    pub fn text(&self, alloc: Global) -> Result<Vec<u8>, AllocError> {
        let mut text = match self {
            State::Clean => format!(in alloc; "so far: clean\n")?,
            State::Waiting(gets) => format!(in alloc; "so far: waiting {gets}\n")?,
            State::Refused(_) => format!(in alloc; "so far: refused\n")?,
            State::Faulty(_) => String::new(alloc),
        }
        .into_bytes();
        match self {
            State::Refused(explanation) => text.extend_from_slice(behind_opening(explanation))?,
            State::Faulty(line) => text.extend_from_slice(line)?,
            State::Clean | State::Waiting(_) => {}
        }
        Ok(text)
    }

    /// The status with which a check of these lines ends.
    pub fn status(&self) -> Status {
        match self {
            State::Clean | State::Waiting(_) => Status::Accepted,
            State::Refused(_) => Status::Refused,
            State::Faulty(_) => Status::Faulty,
        }
    }
}

/// An explanation without its opening, from the empty line on.
fn behind_opening(text: &[u8]) -> &[u8] {
    match text.windows(2).position(|pair| pair == b"\n\n".as_slice()) {
        Some(place) => &text[place + 1..],
        None => text,
    }
}

/// The gets of a history whose version no put has: how many there are, and for each version the first of them.
#[derive(Drop)]
struct Awaited {
    gets: usize,
    firsts: IndexMap<Version, OpName>,
}

/// The versions of a history's puts.
fn put_versions(alloc: Global, history: &History) -> Result<IndexSet<Version>, AllocError> {
    let mut versions = IndexSet::new(alloc);
    for client in 0..history.clients() as u16 {
        for op in history.session(client).iter() {
            if let OpRef::Put { version, .. } = op {
                versions.insert(*version)?;
            }
        }
    }
    Ok(versions)
}

impl Awaited {
    /// Those of a history.
    fn of(alloc: Global, history: &History) -> Result<Awaited, AllocError> {
        let versions = put_versions(alloc, history)?;
        let mut awaited = Awaited {
            gets: 0,
            firsts: IndexMap::new(alloc),
        };
        for client in 0..history.clients() as u16 {
            for (index, op) in history.session(client).iter().enumerate() {
                let index = index as u32;
                awaited.take(&versions, OpName { client, index }, &op)?;
            }
        }
        Ok(awaited)
    }

    /// Takes in a history's next operation, given the versions of all puts.
    fn take(
        &mut self,
        versions: &IndexSet<Version>,
        name: OpName,
        op: &OpRef<'_>,
    ) -> Result<(), AllocError> {
        match op {
            OpRef::Got { version, .. } if !versions.contains(*version) => {
                self.gets = self.gets.saturating_add(1);
                if !self.firsts.contains_key(*version) {
                    self.firsts.insert(**version, name)?;
                }
                Ok(())
            }
            _ => Ok(()),
        }
    }

    /// Whether a history has room for the puts that are awaited, each by a client of its own.
    fn fits(&self, history: &History) -> bool {
        self.firsts.len() <= usize::from(MAX_CLIENTS) - history.clients().min(MAX_CLIENTS as usize)
            && self.firsts.len() <= MAX_OPS - history.len().min(MAX_OPS)
    }
}

/// Adds the next operation of a client that a history has room for.
fn add(history: &mut History, client: u16, op: Op) -> Result<(), Memory> {
    history.push(client, op).or(Err(Memory))
}

/// The put of what a get returned.
fn put_of(got: &OpRef<'_>) -> Result<Option<Op>, AllocError> {
    match got {
        OpRef::Got {
            key,
            value,
            version,
        } => {
            let content = content_copy(*value)?;
            Ok(Some(Op::write(Key::clone(key)?, content, **version)))
        }
        _ => Ok(None),
    }
}

/// A history with the puts that its gets await, each as the one operation of a client of its own.
fn completed(alloc: Global, history: &History, awaited: &Awaited) -> Result<History, Memory> {
    let clients = history.clients() as u16;
    let own = u16::try_from(awaited.firsts.len()).unwrap_or(MAX_CLIENTS);
    let all = clients.saturating_add(own);
    let mut whole = History::new(alloc, all)?;
    for client in 0..clients {
        for op in history.session(client).iter() {
            add(&mut whole, client, op.to_op()?)?;
        }
    }
    for (name, own) in awaited.firsts.values().zip(clients..all) {
        let put = match history.op(*name) {
            Some(got) => put_of(&got)?,
            None => None,
        };
        if let Some(put) = put {
            add(&mut whole, own, put)?;
        }
    }
    Ok(whole)
}

/// What a put is called that the client of this name awaits.
fn awaited_name(alloc: Global, client: &[u8]) -> Result<Vec<u8>, AllocError> {
    let mut name = Vec::new(alloc);
    name.extend_from_slice(b"the put that ")?;
    name.extend_from_slice(client)?;
    name.extend_from_slice(b" got")?;
    Ok(name)
}

/// What the operations of the completed history are called: one of the lines by its line, and an awaited put by the line
/// of the first get that returned it.
fn completed_naming(
    alloc: Global,
    bytes: &[u8],
    names: (&Names, &[Outcome]),
    trace: &Trace,
    awaited: &Awaited,
) -> Result<Naming, AllocError> {
    let (names, unknown) = names;
    let mut copies = names_of(alloc, names, unknown)?;
    let mut lines = lines_in(alloc, bytes, unknown, trace)?;
    for got in awaited.firsts.values() {
        let client = usize::from(got.client);
        let name = awaited_name(
            alloc,
            copies.get(client).map_or(&[], |name| name.as_slice()),
        )?;
        copies.push(name)?;
        let line = lines
            .get(client)
            .and_then(|lines| lines.get(got.index as usize));
        let mut own = Vec::new(alloc);
        own.push(line.copied().unwrap_or(0))?;
        lines.push(own)?;
    }
    Ok(Naming::Lines(LineNames::new(copies, lines, outcome_counts(unknown))))
}

/// The explanation of the first fault of the completed history, if it has one.
fn lasting_fault(
    alloc: Global,
    bytes: &[u8],
    names: (&Names, &[Outcome]),
    trace: &Trace,
    awaited: &Awaited,
) -> Result<Option<Vec<u8>>, Memory> {
    let history = completed(alloc, trace.history(), awaited)?;
    let verdict = judge(alloc, &history)?;
    if let Verdict::Accepted(_) = verdict {
        return Ok(None);
    }
    let naming = completed_naming(alloc, bytes, names, trace, awaited)?;
    let named = NamedHistory {
        history: &history,
        naming: &naming,
    };
    Ok(Some(explain(alloc, named, &verdict, Selection::One(1))?))
}

/// The state of lines whose history is refused as it stands: it may wait for puts.
fn refused_state(alloc: Global, bytes: &[u8], is_ranked: bool) -> Result<State, CheckFault>
    ensures { IfOk result (IsStateOf is_ranked bytes.now) }
{
    let Ok(imported) = imported(alloc, bytes, is_ranked)? else {
        return Err(CheckFault::Changed);
    };
    let Imported {
        names,
        unknown,
        writer,
        ..
    } = imported;
    let text = writer.into_inner();
    let Ok(trace) = read_trace(alloc, &mut Counted::new(text.as_slice())) else {
        return Err(CheckFault::Memory);
    };
    drop(text);
    let awaited = Awaited::of(alloc, trace.history())?;
    if !awaited.fits(trace.history()) {
        return Ok(State::Waiting(awaited.gets));
    }
    match lasting_fault(alloc, bytes, (&names, &unknown), &trace, &awaited)? {
        Some(text) => Ok(State::Refused(text)),
        None => Ok(State::Waiting(awaited.gets)),
    }
}

/// The state of the history that JSON Lines describe so far, with their versions by their ranks or as they stand. Of a
/// get whose version no put has yet, the put is taken to be the one operation of a client of its own; if that history is
/// refused, so is each that further lines can make. With more than 65,535 clients and such puts together, or more than
/// 16,000,000 operations, faults are not looked for while gets wait.
///
/// Fails if memory runs out.
pub fn state_of(alloc: Global, lines: &[u8], is_ranked: bool) -> Result<State, Memory>
    ensures { IfOk result (IsStateOf is_ranked lines.now) }
{
    let request = Request {
        faults: Selection::One(1),
        is_drawn: false,
        is_json: false,
    };
    let Ok(ExplainedText { explained, text }) = checked(alloc, lines, is_ranked, request) else {
        return Err(Memory);
    };
    match explained.answer {
        Answer::Accepted => Ok(State::Clean),
        Answer::Faulty => Ok(State::Faulty(text)),
        Answer::Refused => refused_state(alloc, lines, is_ranked).or(Err(Memory)),
    }
}
