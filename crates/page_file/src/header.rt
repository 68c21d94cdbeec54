//! What a file's header says, and the checks of its numbers.
ghost use Rattle.std.specs.Prelude.{◌≡◌};
ghost use Rattle.page_file.specs.Opening as opening;

/// What the pages of a file may be (docs/FORMAT.md, "Versions").
#[derive(Clone, Copy, Debug, PartialEq, Eq, Drop)]
pub enum Version {
    /// Pages of formats 1 and 2, in which each identifier table is a directory of chains. A file of version 1
    /// is read as one of version 2, and written so where it is changed.
    Two,
    /// Those, and identifier tables that are trees.
    Three,
}

/// What a file's header says: the version, and three numbers.
#[derive(Clone, Copy, Debug, PartialEq, Eq, Drop)]
pub struct Header {
    /// What the pages may be.
    pub version: Version,
    /// One more than the greatest page number given out.
    pub next: u32,
    /// The first free page, 0 if there is none.
    pub first: u32,
    /// How many pages are free.
    pub count: u32,
}

/// Whether the numbers of a header agree with each other.
pub fn is_sound(h: &Header) -> bool
    ensures { result ≡ opening.is_sound h.now }
{
    3 <= h.next
        && (h.first == 0 || 3 <= h.first && h.first < h.next)
        && (h.first == 0) == (h.count == 0)
        && h.count <= h.next - 3
}
