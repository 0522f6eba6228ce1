//! Where the columns are drawn.
ghost use Rattle.std.specs.Prelude.{◌+◌, ◌≤◌, ◌<◌, ◌^◌, IfOk, OnOk, length, vec_len};
ghost use Rattle.cops_explain.specs.declared.sizes.TheConstants.{MAX_COLUMNS, MAX_LANE_LEFT, MAX_WIDTH};

use crate::columns::Column;
use crate::sizes::{
    CARD_HEIGHT, FIRST_TOP, GAP, LANE_START, LANE_STEP, MAX_COLUMNS, MAX_LANE_LEFT, MAX_WIDTH,
};
use std::alloc::{AllocError, Global};

/// A card, in which an operation is described: its left and upper ends and its width, in pixels.
#[derive(Clone, Copy, Debug, PartialEq, Eq)]
pub struct Card {
    pub left: u32,
    pub top: u32,
    pub width: u32,
    ghost left_fits: { left < 2 ^ 16 },
    ghost top_fits: { top < 2 ^ 16 },
    ghost width_fits: { width < 2 ^ 16 },
}

/// The upper end of a lane's cards.
pub fn lane_top(lane: usize) -> u32
    requires { lane ≤ MAX_COLUMNS }
    ensures { result < 2 ^ 16 }
{
    FIRST_TOP + LANE_STEP * lane as u32
}

impl Card {
    ghost use Rattle.std.specs.Prelude.{◌≤◌, ◌<◌, ◌^◌};
    ghost use Rattle.cops_explain.specs.declared.sizes.TheConstants.{MAX_COLUMNS, MAX_LANE_LEFT, MAX_WIDTH};

    /// The card of a column in a lane, both counted from 0, where the lines of lanes begin at `left`.
    fn new(left: u32, width: u32, column: usize, lane: usize) -> Self
        requires left { left ≤ MAX_LANE_LEFT }
        requires width { width ≤ MAX_WIDTH }
        requires column { column ≤ MAX_COLUMNS }
        requires lane { lane ≤ MAX_COLUMNS }
    {
        Card {
            left: left + LANE_START + (width + GAP) * column as u32,
            top: lane_top(lane),
            width,
        }
    }

    /// Its right end.
    pub fn right(self) -> u32
        ensures { result < 2 ^ 17 }
    {
        self.left + self.width
    }

    /// Its lower end.
    pub fn bottom(self) -> u32
        ensures { result < 2 ^ 17 }
    {
        self.top + CARD_HEIGHT
    }

    /// Half way from its left to its right end.
    pub fn center(self) -> u32
        ensures { result < 2 ^ 17 }
    {
        self.left + self.width / 2
    }

    /// Half way from its upper to its lower end.
    pub fn middle(self) -> u32
        ensures { result < 2 ^ 17 }
    {
        self.top + CARD_HEIGHT / 2
    }
}

/// A column, and its card.
#[derive(Clone, Copy, Debug, PartialEq, Eq)]
pub struct CardPlace {
    pub column: Column,
    pub card: Card,
}

/// The clients of the columns' operations, each once, in order: the lanes, from above.
pub fn clients_of(alloc: Global, columns: &[Column]) -> Result<Vec<u16>, AllocError>
    ensures { IfOk result (λ v. vec_len v ≤ length columns.now) }
{
    let mut clients = Vec::new(alloc);
    for column in columns {
        if let Column::Operation { name, .. } = column {
            push_new(&mut clients, name.client)?;
        }
    }
    clients.sort_unstable();
    Ok(clients)
}

/// Adds a client that is not there yet.
fn push_new(clients: &mut Vec<u16>, client: u16) -> Result<(), AllocError>
    ensures { OnOk result (vec_len clients.new ≤ vec_len clients.old + 1) }
{
    if !clients.contains(&client) {
        clients.push(client)?;
    }
    Ok(())
}

/// A client's lane, counted from 0.
fn lane_of(clients: &[u16], client: u16) -> usize
    ensures { result ≤ length clients.now }
{
    clients
        .iter()
        .position(|other| *other == client)
        .unwrap_or(0)
}

/// The columns with their cards, of this width, where the lines of lanes begin at `left`. Operations that are left out
/// are in the lane of the operation before them.
pub fn places_of(
    alloc: Global,
    columns: &[Column],
    clients: &[u16],
    left: u32,
    width: u32,
) -> Result<Vec<CardPlace>, AllocError>
    requires left { left ≤ MAX_LANE_LEFT }
    requires width { width ≤ MAX_WIDTH }
    requires columns { length columns.now ≤ MAX_COLUMNS }
    requires clients { length clients.now ≤ MAX_COLUMNS }
{
    let mut places = Vec::new(alloc);
    let mut lane = 0;
    for (index, column) in columns.iter().enumerate() {
        let column = *column;
        if let Column::Operation { name, .. } = column {
            lane = lane_of(clients, name.client);
        }
        let card = Card::new(left, width, index, lane);
        places.push(CardPlace { column, card })?;
    }
    Ok(places)
}
