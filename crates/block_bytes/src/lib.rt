//! Numbers at places of a block of 4096 bytes, the highest byte first, and what all kinds of pages share.
//! Everything that lies in a block is stated over these words.
#![tactic(auto)]

mod kinds;
pub mod laws;
mod reading;
mod writing;

pub use kinds::{
    BUCKET_KIND, CATALOG_KIND, DIRECTORY_KIND, FREE_KIND, NODE_KIND, UNTAGGED_BUCKET_KIND,
    UNTAGGED_NODE_KIND, write_head,
};
pub use reading::{read_i32, read_u8, read_u16, read_u32, read_u64};
pub use writing::{write_i32, write_u8, write_u16, write_u32, write_u64, zero_block};
