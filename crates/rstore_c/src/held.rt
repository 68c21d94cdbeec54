//! What lies behind a handle.

use crate::device::LibraryDevice;
use c_session::Session;

/// A session over a store in a file.
#[derive(Drop)]
pub struct Held {
    /// The session.
    pub session: Session<LibraryDevice>,
}
