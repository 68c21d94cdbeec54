//! The catalog's page: the list of a file's layers as the bytes of a page (docs/FORMAT.md).
#![tactic(auto)]

pub mod laws;
mod layer_record;
mod names;
mod page;
mod records;

pub use layer_record::LayerRecord;
pub use page::{decode, encode};
