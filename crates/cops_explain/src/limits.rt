/// How many faults are explained where the first are asked for.
pub const FIRST_FAULTS: usize = 20;

/// How many other puts with one version a paragraph lists.
pub const MOST_OTHERS: usize = 20;

/// How many bytes of a value an explanation shows at most.
pub const VALUE_BYTES: usize = 64;
