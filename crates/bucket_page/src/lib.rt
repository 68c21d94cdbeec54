//! Bucket pages: objects of the identifier table as the bytes of a page (docs/FORMAT.md).
#![tactic(auto)]

mod bucket;
mod edits;
mod entries;
mod head;
pub mod laws;
mod page;

pub use bucket::Bucket;
pub use edits::{pop_entry, push_entry, set_entry};
pub use entries::{entry_at, id_at};
pub use head::{count_at, has_bucket_head, next_at};
pub use page::{decode, encode};
