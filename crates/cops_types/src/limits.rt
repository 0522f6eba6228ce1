//! The limits of the types, for code and definitions alike.

/// The most bytes that a key has.
pub const MAX_KEY: usize = 64;

/// The most bytes that a value of format 1 has.
pub const MAX_VALUE_IN_ONE: usize = 4096;

/// The most bytes that a value of format 2 has, and so one of any format.
pub const MAX_VALUE: usize = 16_384;

/// The most pairs that dependencies of format 1 have.
pub const MAX_DEPS_IN_ONE: usize = 256;

/// The most pairs that dependencies of format 2 have, and so those of any format.
pub const MAX_DEPS: usize = 1024;

/// The greatest clock of a version.
pub const MAX_CLOCK: u64 = 281_474_976_710_655;

/// The most data centres. Their numbers are below it.
pub const MAX_DCS: u8 = 16;

/// The most nodes of a data centre. Their places are below it.
pub const PLACES: u8 = 64;

/// The most nodes. Their numbers are below it.
pub const NODES: u16 = 1024;

/// The most bytes that the body of a frame of format 1 has.
pub const MAX_BODY_IN_ONE: usize = 32_768;

/// The most bytes that the body of a frame of format 2 has, and so one of any format.
pub const MAX_BODY: usize = 131_072;

/// The most workers of an audit.
pub const MAX_WORKERS: u8 = 64;

/// The most clients of a history.
pub const MAX_CLIENTS: u16 = 65_535;

/// The most operations of one client.
pub const MAX_CLIENT_OPS: usize = 1_000_000;

/// The most operations of a history.
pub const MAX_OPS: usize = 16_000_000;
