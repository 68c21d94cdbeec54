//! What a stop leaves of the blocks that were not synced.

/// What a stop leaves of the blocks that were written since the last sync.
#[derive(Clone, Copy, Debug, PartialEq, Eq)]
pub enum Left {
    /// The bytes that were written.
    Written,
    /// The bytes of the last sync. Blocks that were appended since are gone.
    Synced,
    /// This byte, throughout.
    Filled(u8),
}
