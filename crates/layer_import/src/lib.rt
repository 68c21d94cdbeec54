//! Objects put into a layer of a store, all of them or none (docs/COMMANDS.md, "Import").
#![tactic(auto)]

mod import;

pub use import::{Import, Imported, PutProgress, Unimported, import_and_close};
