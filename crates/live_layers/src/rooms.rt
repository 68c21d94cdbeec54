//! Memory that insertions into trees and removals from them work in, kept from one change to the next.

ghost use Rattle.std.specs.Prelude.{◌≡◌, IfErr};
ghost use Rattle.box_math.specs.Bounds.{IsDims};
ghost use Rattle.page_file.specs.declared.fault.Fault.TheVariants as fault;

use condense::Kept;
use page_file::Fault;
use std::alloc::Allocator;

// Memory for one of these, where it was taken and is not in use.
pub(crate) type Room<T, A> = Option<Box<T, A>>;

/// The memory that insertions into trees and removals from them work in, by the axes of their boxes. The first
/// one that wants it takes it, and the next ones work in it; nothing of a change is left in it.
#[derive(Drop)]
pub struct Rooms<A: Allocator> {
    pub(crate) kept_two: Room<Kept<2>, A>,
    pub(crate) kept_three: Room<Kept<3>, A>,
}

impl<A: Allocator> Rooms<A> {
    /// Rooms for which no memory is taken yet.
    pub fn new() -> Rooms<A> {
        Rooms {
            kept_two: None,
            kept_three: None,
        }
    }
}

// Takes the room for what a removal keeps and for what waits, which is made where there is none. A refusal is
// `Memory`.
pub(crate) fn take_kept<const D: usize, A: Allocator>(
    room: &mut Room<Kept<D>, A>,
    alloc: A,
) -> Result<Box<Kept<D>, A>, Fault>
    requires { IsDims D }
    ensures { IfErr result (λ f. f ≡ fault.Memory) }
{
    match room.take() {
        Some(kept) => Ok(kept),
        None => Kept::make(alloc),
    }
}
