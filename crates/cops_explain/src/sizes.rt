//! How much is shown, and how large it is drawn, in pixels.

/// How many operations are shown at the start, where some in the middle are left out.
pub const SHOWN_START: usize = 6;

/// How many operations are shown at the end, where some in the middle are left out.
pub const SHOWN_END: usize = 6;

/// The greatest number of columns: a returned put, the columns at either end, and between them one operation with what
/// is left out on either side of it.
pub const MAX_COLUMNS: usize = 16;

/// How many bytes of a key or a value are shown.
pub const SHOWN_BYTES: usize = 16;

/// The greatest number of characters of a lane's label: bytes of three characters each, and the sign that there are
/// more.
pub const MAX_LABEL: usize = 3 * SHOWN_BYTES + 2;

/// The greatest number of characters in a line of a card: a version, a space, a client's name, `, line ` and a number.
pub const MAX_LINE: usize = 21 + 1 + MAX_LABEL + 7 + 20;

/// The least number of characters for which a card has room.
pub const MIN_LINE: usize = 11;

/// The width of a character.
pub const CHARACTER: u32 = 8;

/// The free space on either side of a line.
pub const PADDING: u32 = 10;

/// The height of a card.
pub const CARD_HEIGHT: u32 = 62;

/// The greatest width of a card.
pub const MAX_WIDTH: u32 = 2 * PADDING + CHARACTER * MAX_LINE as u32;

/// The free space around the picture.
pub const MARGIN: u32 = 16;

/// The least right end of the cards, so that there is room for the picture's sentence.
pub const MIN_RIGHT: u32 = 600;

/// Where the first card begins, from above.
pub const FIRST_TOP: u32 = 76;

/// The space from card to card.
pub const GAP: u32 = 44;

/// The distance from lane to lane.
pub const LANE_STEP: u32 = 112;

/// The base line of the fault's text in the head, from above.
pub const HEAD_BASE: u32 = 28;

/// The base line of the sentence in the head, from above.
pub const SENTENCE_BASE: u32 = 48;

/// The base line in a card of what the operation did.
pub const ACT_BASE: u32 = 19;

/// The base line in a card of the value.
pub const VALUE_BASE: u32 = 36;

/// The base line in a card of the name.
pub const NAME_BASE: u32 = 53;

/// How far below the middle of a lane the base line of its client is.
pub const LANE_BASE: u32 = 4;

/// The radius of a card's corners.
pub const CORNER: u32 = 7;

/// Where the lines of lanes begin at least, from the left.
pub const LANE_LEFT: u32 = 120;

/// The space from a lane's label to its line.
pub const LABEL_GAP: u32 = 8;

/// Where the lines of lanes begin at most, from the left.
pub const MAX_LANE_LEFT: u32 = LANE_LEFT + CHARACTER * MAX_LABEL as u32;

/// The space from the beginning of a lane's line to its first card.
pub const LANE_START: u32 = 16;

/// How far below the lowest lane the line from a returned put to its get begins to turn.
pub const FOOT: u32 = 16;

/// The size of the turns of that line.
pub const TURN: u32 = 12;

/// Where that line ends at the get's card, from the card's left end.
pub const RETURN_AT: u32 = 24;
