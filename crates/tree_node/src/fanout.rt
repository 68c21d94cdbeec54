//! How many entries a node may have.

ghost use Rattle.std.specs.Prelude.{◌≡◌, ◌≤◌, ◌↔◌, IfSome, IsSome};
ghost use Rattle.tree_node.specs.Shape;

/// The most entries of a node of a layer's trees: from 4 to 100 (M of Beckmann, Kriegel, Schneider and Seeger
/// 1990; docs/RULES.md).
#[derive(Clone, Copy, PartialEq, Eq, Debug)]
pub struct Fanout {
    /// How many.
    pub most: u8,
    pub ghost within: { (4 ≤ most) × (most ≤ 100) },
}

impl Fanout {
    /// That of a byte, or `None` where it is none: below 4 or above 100.
    pub fn from_byte(most: u8) -> Option<Fanout>
        ensures value { IfSome result (λ fanout. fanout.most ≡ most) }
        ensures some { IsSome result ↔ ((4 ≤ most) × (most ≤ 100)) }
    {
        if most < 4 || most > 100 {
            return None;
        }
        Some(Fanout { most })
    }

    /// How many, as a size.
    pub fn entries(self) -> usize
        ensures { result ≡ self.most }
    {
        usize::from(self.most)
    }

    /// The least count of entries of a node below the root.
    pub fn least_entries(self) -> usize
        ensures value { result ≡ Shape.least_entries self.most }
        ensures few { (2 ≤ result) × (result ≤ 40) }
    {
        least_entries(self.most)
    }
}

/// The least count of entries of a node below the root, where a node has at most so many: 40 in a hundred of
/// these, and two at least (Beckmann et al. 1990; docs/RULES.md).
pub fn least_entries(most: u8) -> usize
    ensures { result ≡ Shape.least_entries most }
{
    (2 * usize::from(most) / 5).max(2)
}
