//! The pages of identifier trees: leaves with objects, and forks with the keys and pages of children
//! (docs/FORMAT.md). Each is read and changed where it lies.
#![tactic(auto)]

mod fork;
mod fork_edits;
pub mod fork_laws;
mod fork_parts;
mod head;
mod leaf;
pub mod leaf_laws;
mod leaf_parts;
mod links;
mod objects;

pub use fork::{is_fork, place_of_child};
pub use fork_edits::{
    insert_link, pop_link, push_link, remove_link, set_key, set_link, set_page, start_fork,
};
pub use fork_parts::{append_links, keep_links};
pub use head::{FORK_KIND, LEAF_KIND, count_at, dims_at};
pub use leaf::{
    is_leaf, place_of_id, pop_object, push_object, set_object, start_leaf, take_object,
};
pub use leaf_parts::{append_objects, keep_objects};
pub use links::{MOST_CHILDREN, has_fork_head, key_at, level_at, page_at};
pub use objects::{has_leaf_head, id_at, object_at, objects_that_fit};
