//! Objects from CSV text and from lines of GeoJSON (docs/COMMANDS.md, "Import").
#![tactic(auto)]

mod between;
mod columns;
mod coordinates;
mod csv_rows;
mod error;
mod extent;
mod feature;
mod feature_lines;
mod fields;
mod geometry;
mod json;
mod json_text;
mod line_reader;
mod member;
mod number;
mod places;
mod scale;

pub use columns::Columns;
pub use csv_rows::{CsvRows, read_csv};
pub use error::{ColumnFault, ImportError, Why};
pub use extent::Axes;
pub use feature::Properties;
pub use feature_lines::{FeatureLines, read_features};
pub use fields::whole_number;
pub use number::{NumberError, scaled};
use plain_table::RawBox;
pub use scale::Scale;

/// An object: its identifier, its box and its tag.
pub type ImportedObject = (u64, RawBox, u32);
