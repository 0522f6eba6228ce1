//! The arrows between cards.
ghost use Rattle.std.specs.Prelude.{◌<◌, ◌^◌, OnOk, string_bytes};
ghost use Rattle.cops_explain.specs.Pictures.{Extends};

use crate::columns::{Column, Role};
use crate::contents::Written;
use crate::layout::{Card, CardPlace};
use crate::sizes::{FOOT, RETURN_AT, TURN};

/// Draws an arrow from a card to one on its right: straight within a lane, otherwise curved from lane to lane.
fn push_link(out: &mut String, from: Card, to: Card) -> Written
    ensures { OnOk result (Extends (string_bytes out.old) (string_bytes out.new)) }
{
    out.push_str("<path class=\"link\" marker-end=\"url(#tip)\" d=\"")?;
    let middle = from.middle();
    if from.top == to.top {
        let right = from.right();
        let left = to.left;
        return write!(out, "M{right} {middle}H{left}\"/>\n");
    }
    let start = from.center();
    let end = to.center();
    let (leave, arrive) = if from.top < to.top {
        (from.bottom(), to.top)
    } else {
        (from.top, to.bottom())
    };
    let half = (leave + arrive) / 2;
    write!(
        out,
        "M{start} {leave}C{start} {half} {end} {half} {end} {arrive}\"/>\n"
    )
}

/// Whether an arrow leads from the column to the next one.
fn leads_on(column: Column) -> bool {
    match column {
        Column::Operation { role, .. } => role != Role::Returned,
        Column::LeftOut(_) => true,
    }
}

/// Draws an arrow from each place to the next one, except from the returned put.
pub fn push_links(out: &mut String, places: &[CardPlace]) -> Written
    ensures { OnOk result (Extends (string_bytes out.old) (string_bytes out.new)) }
{
    let mut before: Option<Card> = None;
    for place in places {
        if let Some(from) = before {
            push_link(out, from, place.card)?;
        }
        before = if leads_on(place.column) {
            Some(place.card)
        } else {
            None
        };
    }
    Ok(())
}

/// Draws a line from a returned put to the get that returned it. It runs below the lowest lane, whose cards end at
/// `lowest`.
fn push_way(out: &mut String, from: Card, to: Card, lowest: u32) -> Written
    requires { lowest < 2 ^ 17 }
    ensures { OnOk result (Extends (string_bytes out.old) (string_bytes out.new)) }
{
    let start = from.center();
    let leave = from.bottom();
    let turn = start + TURN;
    let above = lowest + FOOT;
    let below = above + TURN;
    let before = to.left + RETURN_AT - TURN;
    let end = to.left + RETURN_AT;
    let arrive = to.bottom();
    out.push_str("<path class=\"back\" marker-end=\"url(#backtip)\" d=\"")?;
    write!(
        out,
        "M{start} {leave}V{above}Q{start} {below} {turn} {below}"
    )?;
    write!(out, "H{before}Q{end} {below} {end} {above}V{arrive}\"/>\n")
}

/// Draws that line if the first place is a returned put; the get is at the last place.
pub fn push_return(out: &mut String, places: &[CardPlace], lowest: u32) -> Written
    requires { lowest < 2 ^ 17 }
    ensures { OnOk result (Extends (string_bytes out.old) (string_bytes out.new)) }
{
    let (Some(first), Some(last)) = (places.first(), places.last()) else {
        return Ok(());
    };
    if leads_on(first.column) {
        return Ok(());
    }
    push_way(out, first.card, last.card, lowest)
}
