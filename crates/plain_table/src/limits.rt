//! How much a table may have, and how much of it may be asked for.

/// How many bytes the name of a layer has at most.
pub const MOST_NAME_BYTES: usize = 24;

/// How many layers there may be.
pub const MOST_LAYERS: usize = 60;

/// How many nearest objects may be asked for.
pub const MOST_NEAREST: u64 = 1_000_000;

/// How many objects there may be in all layers together.
pub const MOST_OBJECTS: u64 = 1 << 30;
