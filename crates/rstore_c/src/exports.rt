//! The functions that C calls. Each answers 0 or a number of `number`. A `Global` and a stream take no
//! argument of C's, and a slice is a pointer that is not null and then a length.

mod asking;
mod changes;
mod giving_up;
mod opening;
mod outlining;
mod parts;
mod questions;
