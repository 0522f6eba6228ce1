ghost use Rattle.std.specs.Prelude.{◌≡◌, ◌<◌, ◌≤◌, ◌^◌, IfOk, MatchOption, None, OnOk, length, string_bytes};
ghost use Rattle.cops_audit.specs.Faults.{IsFault};
ghost use Rattle.cops_audit.specs.Verdicts.{IsVerdict};
ghost use Rattle.cops_explain.specs.Names.{fault_text};
ghost use Rattle.cops_explain.specs.Pictures.{Extends, IsEnded, IsPicture, IsPictureOf, fault_at};
ghost use Rattle.cops_explain.specs.declared.sizes.TheConstants.{MAX_COLUMNS};

use crate::columns::{Column, columns_of};
use crate::contents::{Form, Written};
use crate::drawing::{push_cards, push_head, push_lanes, push_page};
use crate::layout::{CardPlace, clients_of, lane_top, places_of};
use crate::lines::{card_width, lane_left};
use crate::links::{push_links, push_return};
use crate::names::push_fault;
use crate::naming::{NamedHistory, Naming};
use crate::sizes::{CARD_HEIGHT, FOOT, MARGIN, MIN_RIGHT};
use cops_audit::{Fault, Verdict};
use cops_types::Memory;
use std::alloc::{AllocError, Global};

/// The right end of the last card, 0 if there is none.
fn right_of(places: &[CardPlace]) -> u32
    ensures { result < 2 ^ 17 }
{
    match places.last() {
        Some(place) => place.card.right(),
        None => 0,
    }
}

/// Draws the arrows for the class of the fault.
fn push_arrows(out: &mut String, fault: Fault, places: &[CardPlace], lowest: u32) -> Written
    requires { lowest < 2 ^ 17 }
    ensures { OnOk result (Extends (string_bytes out.old) (string_bytes out.new)) }
{
    match fault {
        Fault::Doubled(_) | Fault::NoSource(_) => Ok(()),
        Fault::NotAbove(_) => push_links(out, places),
        Fault::Stale(_) => {
            push_links(out, places)?;
            push_return(out, places, lowest)
        }
    }
}

/// The rest of a picture with these columns, after its beginning.
fn rest_of(
    alloc: Global,
    named: NamedHistory<'_>,
    fault: Fault,
    columns: &[Column],
) -> Result<String, AllocError>
    requires { length columns.now ≤ MAX_COLUMNS }
    ensures { IfOk result (λ rest. IsEnded (string_bytes rest)) }
{
    let clients = clients_of(alloc, columns)?;
    let left = lane_left(alloc, named.naming, &clients)?;
    let width = card_width(alloc, named, columns)?;
    let places = places_of(alloc, columns, &clients, left, width)?;
    let right = right_of(&places).max(MIN_RIGHT);
    let lowest = lane_top(clients.len().saturating_sub(1)) + CARD_HEIGHT;
    let mut out = String::new(alloc);
    push_page(&mut out, right + 2 * MARGIN, lowest + 2 * FOOT + MARGIN)?;
    push_head(&mut out, named, fault)?;
    push_lanes(&mut out, named.naming, &clients, left, right + MARGIN)?;
    push_arrows(&mut out, fault, &places, lowest)?;
    push_cards(alloc, &mut out, named, &places)?;
    out.push_str("</svg>\n")?;
    Ok(out)
}

/// The class of a fault and the name of its operation, escaped.
fn label_of(alloc: Global, naming: &Naming, fault: Fault) -> Result<String, AllocError>
    ensures { IfOk result (λ label. string_bytes label ≡ fault_text Form.Escaped naming.now fault) }
{
    let mut label = String::new(alloc);
    push_fault(&mut label, Form::Escaped, naming, fault)?;
    Ok(label)
}

/// The picture of a fault.
fn picture_of(alloc: Global, named: NamedHistory<'_>, fault: Fault) -> Result<Vec<u8>, Memory>
    requires { IsFault named.history.now.sessions fault }
    ensures { IfOk result (λ text. IsPictureOf named.entry.naming.now fault text.items) }
{
    let columns = columns_of(alloc, named.history, fault)?;
    let rest = rest_of(alloc, named, fault, &columns)?;
    let label = label_of(alloc, named.naming, fault)?;
    let text = format!(in alloc;
        "<svg xmlns=\"http://\
        www.w3.org/2000/svg\" role=\"img\" aria-label=\"{label}\"{rest}"
    )?;
    Ok(text.into_bytes())
}

/// The fault with this number, counted from 1, in the order of the report.
fn fault_at(verdict: &Verdict, number: u32) -> Option<Fault>
    ensures { result ≡ fault_at verdict.now number }
{
    match verdict {
        Verdict::Accepted(_) => None,
        Verdict::Refused(faults) => faults.of_number(number),
    }
}

/// A picture in SVG of the verdict's fault with this number, counted from 1, in the order of the report. It is `None`
/// where there is no such fault. The only error is `Memory`, where memory runs out.
///
/// Each client concerned has a lane, and each operation a card. The cards are arranged from left to right, so that
/// those of one client are in its order. A stale get's picture shows its chain, as in the report, with an arrow from
/// each operation to the next one, and before them the put that it returned, if any. Of a chain that is longer than 13
/// it shows the first 6 and the last 6 operations.
pub fn picture(
    alloc: Global,
    named: NamedHistory<'_>,
    verdict: &Verdict,
    fault: u32,
) -> Result<Option<Vec<u8>>, Memory>
    requires { IsVerdict named.history.now.sessions verdict.now }
    ensures { IfOk result (λ found. MatchOption found
        (fault_at verdict.now fault ≡ None)
        (λ text. IsPicture named.entry.naming.now verdict.now fault text.items)) }
{
    let Some(fault) = fault_at(verdict, fault) else {
        return Ok(None);
    };
    let text = picture_of(alloc, named, fault)?;
    Ok(Some(text))
}
