//! What coordinates are multiplied by.

ghost use Rattle.std.specs.Prelude.{◌≡◌, ◌≤◌, ◌^◌, false, IfSome};

/// The whole number that each coordinate is multiplied by, from 1 to 10^9; and whether what is no whole
/// number then is refused, or rounded outward.
#[derive(Clone, Copy, PartialEq, Eq, Debug)]
pub struct Scale {
    value: u32,
    whole_alone: bool,
    ghost in_range: { 1 ≤ value },
    ghost small: { value ≤ 10 ^ 9 },
}

impl Scale {
    /// No change, and coordinates are rounded outward.
    pub const ONE: Scale = Scale {
        value: 1,
        whole_alone: false,
    };

    /// No change, and a coordinate that is no whole number is refused.
    pub const WHOLE: Scale = Scale {
        value: 1,
        whole_alone: true,
    };

    /// This scale, if it is from 1 to 10^9. Coordinates are rounded outward.
    pub fn new(value: u32) -> Option<Scale>
        ensures { IfSome result (λ s. (s.value ≡ value) × (s.whole_alone ≡ false)) }
    {
        if 1 <= value && value <= 1_000_000_000 {
            Some(Scale {
                value,
                whole_alone: false,
            })
        } else {
            None
        }
    }

    /// The number.
    pub fn value(&self) -> u32
        ensures { result ≡ self.now.value }
    {
        self.value
    }

    /// Whether a coordinate that is no whole number is refused.
    pub fn is_whole_alone(&self) -> bool
        ensures { result ≡ self.now.whole_alone }
    {
        self.whole_alone
    }
}
