//! What is known of the gate of a file.

/// What is known of a file's gate.
#[derive(Clone, Copy, Debug, PartialEq, Eq, Drop)]
pub enum Gate {
    /// It is shut, and with all other blocks synced.
    Shut,
    /// It is open, and was synced before any other block was written.
    Open,
    /// A write or sync of it failed, or it is to be written after blocks that are synced.
    Unsure,
}
