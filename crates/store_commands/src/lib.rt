//! Commands as plain data, put to a store and to one beside it to which nothing is refused, and worked scenes,
//! for the tests of the store.
#![tactic(auto)]

mod commands;
mod scenes;
mod stores;

pub use commands::{Answer, Command, Object, PLANE, SPACE, answer, represents};
pub use scenes::{DELETED, FIRST_OVERFLOW, FIVE, JOINED, LINE, LOADED, Row, Scene, TOUCHING, TWO};
pub use stores::{closed, device_of, new_store, opened};
