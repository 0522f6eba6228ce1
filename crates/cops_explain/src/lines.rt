//! The lines that describe an operation in its card, and the labels of lanes.
ghost use Rattle.std.specs.Prelude.{◌≤◌, IfOk};
ghost use Rattle.cops_explain.specs.declared.sizes.TheConstants.{MAX_LANE_LEFT, MAX_WIDTH};

use crate::columns::Column;
use crate::contents::{Form, push_content};
use crate::names::{push_client, push_name};
use crate::naming::{NamedHistory, Naming};
use crate::operation::word_of;
use crate::sizes::{
    CHARACTER, LABEL_GAP, LANE_LEFT, MARGIN, MAX_LABEL, MAX_LINE, MIN_LINE, PADDING,
};
use cops_types::{OpName, OpRef};
use std::alloc::{AllocError, Global};

/// What the operation did, in a word: the first of the words of an explanation.
fn act_word(op: OpRef<'_>) -> &'static str {
    match word_of(op).split_once(' ') {
        Some((word, _)) => word,
        None => "",
    }
}

/// The first line of a card: what the operation did, and the key.
fn act_line(alloc: Global, op: OpRef<'_>) -> Result<String, AllocError> {
    let word = act_word(op);
    match op {
        OpRef::Put { key, .. } => shown(alloc, word, key.as_bytes()),
        OpRef::Got { key, .. } => shown(alloc, word, key.as_bytes()),
        OpRef::Missed { key } => shown(alloc, word, key.as_bytes()),
    }
}

/// The second line: the value. It is empty for a deletion.
fn value_line(alloc: Global, op: OpRef<'_>) -> Result<String, AllocError> {
    match op {
        OpRef::Put {
            value: Some(value),
            ..
        } => shown(alloc, "=", value.as_bytes()),
        OpRef::Put { value: None, .. } => Ok(String::new(alloc)),
        OpRef::Got {
            value: Some(value),
            ..
        } => shown(alloc, "=", value.as_bytes()),
        OpRef::Got { value: None, .. } => String::from_str(alloc, "deleted"),
        OpRef::Missed { .. } => String::from_str(alloc, "nothing"),
    }
}

/// The third line: the version, and the name.
fn name_line(
    alloc: Global,
    naming: &Naming,
    name: OpName,
    op: OpRef<'_>,
) -> Result<String, AllocError> {
    let mut text = String::new(alloc);
    match op {
        OpRef::Put { version, .. } => write!(text, "{version} ")?,
        OpRef::Got { version, .. } => write!(text, "{version} ")?,
        OpRef::Missed { .. } => {}
    }
    push_name(&mut text, Form::Short, naming, name)?;
    Ok(text)
}

/// A word, and the first bytes of a key or a value.
fn shown(alloc: Global, word: &str, bytes: &[u8]) -> Result<String, AllocError> {
    let mut text = format!(in alloc; "{word} ")?;
    push_content(&mut text, Form::Short, bytes)?;
    Ok(text)
}

/// The lines of an operation's card.
#[derive(Drop)]
pub struct CardLines {
    pub act: String,
    pub value: String,
    pub name: String,
}

impl CardLines {
    /// The lines of the card of this operation.
    pub fn new(
        alloc: Global,
        naming: &Naming,
        name: OpName,
        op: OpRef<'_>,
    ) -> Result<CardLines, AllocError> {
        let act = act_line(alloc, op)?;
        let value = value_line(alloc, op)?;
        let name = name_line(alloc, naming, name, op)?;
        Ok(CardLines { act, value, name })
    }

    /// The length of the longest of them, in characters.
    fn longest(&self) -> usize {
        self.act.len().max(self.value.len()).max(self.name.len())
    }
}

/// The text in place of a card: how many operations are left out.
pub fn left_out_line(alloc: Global, count: usize) -> Result<String, AllocError> {
    format!(in alloc; ".. {count} more")
}

/// The longest line of a column, in characters.
fn longest_line(
    alloc: Global,
    named: NamedHistory<'_>,
    column: Column,
) -> Result<usize, AllocError> {
    match column {
        Column::Operation { name, .. } => match named.history.op(name) {
            Some(op) => Ok(CardLines::new(alloc, named.naming, name, op)?.longest()),
            None => Ok(0),
        },
        Column::LeftOut(count) => Ok(left_out_line(alloc, count)?.len()),
    }
}

/// The width of cards in which each line of the columns' operations fits, in pixels.
pub fn card_width(
    alloc: Global,
    named: NamedHistory<'_>,
    columns: &[Column],
) -> Result<u32, AllocError>
    ensures { IfOk result (λ width. width ≤ MAX_WIDTH) }
{
    let mut longest = MIN_LINE;
    for column in columns {
        longest = longest.max(longest_line(alloc, named, *column)?);
    }
    let characters = longest.min(MAX_LINE) as u32;
    Ok(2 * PADDING + CHARACTER * characters)
}

/// Where the lines of lanes begin, from the left, so that each client's label fits before its lane.
pub fn lane_left(alloc: Global, naming: &Naming, clients: &[u16]) -> Result<u32, AllocError>
    ensures { IfOk result (λ left. left ≤ MAX_LANE_LEFT) }
{
    let mut longest = 0;
    for client in clients {
        let mut label = String::new(alloc);
        push_client(&mut label, Form::Short, naming, *client)?;
        longest = label.len().max(longest);
    }
    let characters = longest.min(MAX_LABEL) as u32;
    Ok(LANE_LEFT.max(MARGIN + CHARACTER * characters + LABEL_GAP))
}
