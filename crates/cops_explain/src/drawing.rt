//! The parts of a picture, as text.
ghost use Rattle.std.specs.Prelude.{◌≤◌, OnOk, length, string_bytes};
ghost use Rattle.cops_explain.specs.Pictures.{Extends};
ghost use Rattle.cops_explain.specs.declared.sizes.TheConstants.{MAX_COLUMNS};

use crate::columns::{Column, Role};
use crate::contents::{Form, Written};
use crate::layout::{Card, CardPlace, lane_top};
use crate::lines::{CardLines, left_out_line};
use crate::names::{push_client, push_fault};
use crate::naming::{NamedHistory, Naming};
use crate::operation::push_reported;
use crate::sentence::sentence;
use crate::sizes::{
    ACT_BASE, CARD_HEIGHT, CORNER, HEAD_BASE, LANE_BASE, MARGIN, NAME_BASE, SENTENCE_BASE,
    VALUE_BASE,
};
use crate::style::{STYLE, TIPS};
use cops_audit::Fault;
use cops_types::OpName;
use std::alloc::Global;

/// The CSS class of a column's card, which decides its style.
fn class_of(column: Column) -> &'static str {
    match column {
        Column::Operation { role, .. } => match role {
            Role::Plain => "card",
            Role::Newer => "card newer",
            Role::Returned => "card returned",
            Role::AtFault => "card fault",
        },
        Column::LeftOut(_) => "left",
    }
}

/// Writes the end of the first tag, with the size of the picture in pixels, and the parts that every picture has.
pub fn push_page(out: &mut String, width: u32, height: u32) -> Written
    ensures { OnOk result (Extends (string_bytes out.old) (string_bytes out.new)) }
{
    write!(
        out,
        " width=\"{width}\" height=\"{height}\" viewBox=\"0 0 {width} {height}\""
    )?;
    out.push_str(" font-family=\"monospace\" font-size=\"13\">\n")?;
    out.push_str(STYLE)?;
    out.push_str(TIPS)?;
    write!(
        out,
        "<rect class=\"page\" width=\"{width}\" height=\"{height}\"/>\n"
    )
}

/// Writes the fault, and what it means.
pub fn push_head(out: &mut String, named: NamedHistory<'_>, fault: Fault) -> Written
    ensures { OnOk result (Extends (string_bytes out.old) (string_bytes out.new)) }
{
    let sentence = sentence(named.history, fault);
    write!(
        out,
        "<text class=\"head\" x=\"{MARGIN}\" y=\"{HEAD_BASE}\">"
    )?;
    push_fault(out, Form::Short, named.naming, fault)?;
    write!(
        out,
        "</text>\n<text class=\"small\" x=\"{MARGIN}\" y=\"{SENTENCE_BASE}\">{sentence}</text>\n"
    )
}

/// Draws a lane for each client, from `left` up to the right end of the picture.
pub fn push_lanes(
    out: &mut String,
    naming: &Naming,
    clients: &[u16],
    left: u32,
    right: u32,
) -> Written
    requires { length clients.now ≤ MAX_COLUMNS }
    ensures { OnOk result (Extends (string_bytes out.old) (string_bytes out.new)) }
{
    for (lane, client) in clients.iter().enumerate() {
        let middle = lane_top(lane) + CARD_HEIGHT / 2;
        let base = middle + LANE_BASE;
        write!(out, "<text x=\"{MARGIN}\" y=\"{base}\">")?;
        push_client(out, Form::Short, naming, *client)?;
        write!(
            out,
            "</text>\n<path class=\"lane\" d=\"M{left} {middle}H{right}\"/>\n"
        )?;
    }
    Ok(())
}

/// Draws the lines of an operation's card, which has this width.
fn push_lines(out: &mut String, width: u32, lines: &CardLines) -> Written
    ensures { OnOk result (Extends (string_bytes out.old) (string_bytes out.new)) }
{
    let center = width / 2;
    push_line(out, center, ACT_BASE, "", &lines.act)?;
    push_line(out, center, VALUE_BASE, "", &lines.value)?;
    push_line(out, center, NAME_BASE, " class=\"small\"", &lines.name)
}

/// Begins a card, inside which positions are relative to its upper left corner.
fn push_start(out: &mut String, class: &str, card: Card) -> Written
    ensures { OnOk result (Extends (string_bytes out.old) (string_bytes out.new)) }
{
    let left = card.left;
    let top = card.top;
    write!(
        out,
        "<g class=\"{class}\" transform=\"translate({left} {top})\">"
    )
}

/// Draws the border of a card.
fn push_border(out: &mut String, card: Card) -> Written
    ensures { OnOk result (Extends (string_bytes out.old) (string_bytes out.new)) }
{
    let width = card.width;
    write!(
        out,
        "<rect width=\"{width}\" height=\"{CARD_HEIGHT}\" rx=\"{CORNER}\"/>"
    )
}

/// Draws what is in the card of an operation, with the full text of the operation as its title.
fn push_card(
    alloc: Global,
    out: &mut String,
    named: NamedHistory<'_>,
    card: Card,
    name: OpName,
) -> Written
    ensures { OnOk result (Extends (string_bytes out.old) (string_bytes out.new)) }
{
    let Some(op) = named.history.op(name) else {
        return Ok(());
    };
    let lines = CardLines::new(alloc, named.naming, name, op)?;
    out.push_str("<title>")?;
    push_reported(out, Form::Escaped, named, name)?;
    out.push_str("</title>")?;
    push_border(out, card)?;
    push_lines(out, card.width, &lines)?;
    Ok(())
}

/// Draws a line of a card.
fn push_line(out: &mut String, center: u32, base: u32, class: &str, line: &str) -> Written
    ensures { OnOk result (Extends (string_bytes out.old) (string_bytes out.new)) }
{
    write!(
        out,
        "<text{class} x=\"{center}\" y=\"{base}\">{line}</text>"
    )
}

/// Writes, in place of a card, how many operations are left out.
fn push_left_out(alloc: Global, out: &mut String, card: Card, count: usize) -> Written
    ensures { OnOk result (Extends (string_bytes out.old) (string_bytes out.new)) }
{
    let line = left_out_line(alloc, count)?;
    push_border(out, card)?;
    push_line(out, card.width / 2, VALUE_BASE, "", &line)
}

/// Draws the card of a column.
fn push_place(alloc: Global, out: &mut String, named: NamedHistory<'_>, place: CardPlace) -> Written
    ensures { OnOk result (Extends (string_bytes out.old) (string_bytes out.new)) }
{
    let card = place.card;
    push_start(out, class_of(place.column), card)?;
    match place.column {
        Column::Operation { name, .. } => push_card(alloc, out, named, card, name)?,
        Column::LeftOut(count) => push_left_out(alloc, out, card, count)?,
    }
    out.push_str("</g>\n")
}

/// Draws the cards.
pub fn push_cards(
    alloc: Global,
    out: &mut String,
    named: NamedHistory<'_>,
    places: &[CardPlace],
) -> Written
    ensures { OnOk result (Extends (string_bytes out.old) (string_bytes out.new)) }
{
    for place in places {
        push_place(alloc, out, named, *place)?;
    }
    Ok(())
}
