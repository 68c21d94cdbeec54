//! The plain table: what it is, what commands ask of it, and what each answers and changes
//! (docs/COMMANDS.md).
#![tactic(auto)]

mod axes;
mod boxes;
pub mod laws;
mod limits;
mod names;
mod queries;
mod refusal;
mod rows;

pub use axes::{Axes, Dimension};
pub use boxes::{AnyBox, RawBox, RawPoint};
pub use limits::{MOST_LAYERS, MOST_NAME_BYTES, MOST_NEAREST, MOST_OBJECTS};
pub use names::{is_dims, is_fanout, is_layer_name};
pub use queries::{RawQuery, is_count};
pub use refusal::Refusal;
pub use rows::{DumpRow, LayerInfo, LayerName};
