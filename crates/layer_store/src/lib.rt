//! The spatial store: layers of boxes in trees of pages in a file, their commands, and the theorem that each
//! answers as a plain table does.
#![tactic(auto)]

pub mod laws;
mod store;

pub use live_layers::LayerOutline;
pub use page_file::Version;
pub use plain_table::{AnyBox, DumpRow, LayerInfo, RawBox, RawPoint, RawQuery, Refusal};
pub use store::{Store, create_store, open_store};
