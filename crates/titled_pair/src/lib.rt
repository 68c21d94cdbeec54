//! A pair of devices whose journal begins with two blocks of its own: which base it is of, and whether its
//! session has ended.
//!
//! The journal of one file must not be replayed over another that took its place. So its title carries block
//! 1 of the base as the session found it.
#![tactic(auto)]

pub mod laws;
mod pair;
mod title;

pub use pair::TitledPair;
pub use title::{TITLE_BLOCKS, end_of_base, is_title, make_title, retitled_page, title_of_base};
