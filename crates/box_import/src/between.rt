//! The whole numbers on both sides of a size that digits write.

ghost use Rattle.std.specs.Prelude.{◌≡◌, ℕ, ◌+◌, ◌-◌, ◌*◌, ◌/◌, ◌^◌, ◌<◌, ◌≤◌, ◌++◌, length, take, drop, min};
ghost use Rattle.std.specs.Prelude.{slice_index};
ghost use Rattle.std.specs.Char.{digit_value};
ghost use Rattle.std.specs.Str.Parse.{AllDigits, digits_value};
ghost use Rattle.box_import.specs.Decimals.{IsBetween};

// Numbers from here on are not told apart: they are out of range at any scale.
pub(crate) const BEYOND: u64 = 1 << 32;

/// The greatest whole number that is no more than a size, and the least that is no less.
#[derive(Clone, Copy)]
pub(crate) struct Between {
    pub low: u64,
    pub high: u64,
}

impl Between {
    /// A tenth of the size and a digit's worth of scales.
    pub fn behind_digit(self, digit: u64, scale: u64) -> Between
        requires digit { digit < 10 }
        requires scale { scale ≤ 10 ^ 9 }
        requires within { self.high ≤ scale }
        requires ordered { self.low ≤ self.high }
        ensures low { result.low ≡ (digit * scale + self.low) / 10 }
        ensures high { result.high ≡ (digit * scale + self.high + 9) / 10 }
        ensures within { result.high ≤ scale }
        ensures ordered { result.low ≤ result.high }
    {
        Between {
            low: (digit * scale + self.low) / 10,
            high: (digit * scale + self.high + 9) / 10,
        }
    }

    /// The size over ten, so often.
    pub fn behind_zeros(self, zeros: usize, scale: u64) -> Between
        requires scale { scale ≤ 10 ^ 9 }
        requires within { self.high ≤ scale }
        requires ordered { self.low ≤ self.high }
        ensures value { (n d : ℕ) → IsBetween self.low self.high n d
            → IsBetween result.low result.high n (d * 10 ^ zeros) }
        ensures within { result.high ≤ scale }
        ensures ordered { result.low ≤ result.high }
    {
        let mut size = self;
        for _ in 0..zeros {
            size = size.behind_digit(0, scale);
        }
        size
    }

    /// The size and a whole number more.
    pub fn above(self, whole: u64) -> Between
        requires whole { whole ≤ 10 ^ 9 * 2 ^ 32 }
        requires within { self.high ≤ 10 ^ 9 }
        requires ordered { self.low ≤ self.high }
        ensures low { result.low ≡ whole + self.low }
        ensures high { result.high ≡ whole + self.high }
    {
        Between {
            low: whole + self.low,
            high: whole + self.high,
        }
    }
}

// The digit at a place of the whole digits with the fraction's behind them.
fn digit_at(whole: &[u8], fraction: &[u8], at: usize) -> u64
    requires digits { AllDigits 10 (whole.now ++ fraction.now) }
    requires within { at < length whole.now + length fraction.now }
    ensures value { result ≡ digit_value (slice_index (whole.now ++ fraction.now) at) }
    ensures digit { result < 10 }
{
    let byte = if at < whole.len() {
        whole[at]
    } else {
        fraction[at - whole.len()]
    };
    u64::from(byte.wrapping_sub(b'0'))
}

/// The number of the first digits, or 2^32 where that is less.
pub(crate) fn first_digits(whole: &[u8], fraction: &[u8], count: usize) -> u64
    requires digits { AllDigits 10 (whole.now ++ fraction.now) }
    requires within { count ≤ length whole.now + length fraction.now }
    ensures { result ≡ min (digits_value 10 (take count (whole.now ++ fraction.now))) (2 ^ 32) }
{
    let mut number = 0;
    for at in 0..count {
        number = (number * 10 + digit_at(whole, fraction, at)).min(BEYOND);
    }
    number
}

/// A number with so many zeros behind it, or 2^32 where that is less.
pub(crate) fn with_zeros(number: u64, zeros: usize) -> u64
    requires { number ≤ 2 ^ 32 }
    ensures { result ≡ min (number * 10 ^ zeros) (2 ^ 32) }
{
    let mut all = number;
    for _ in 0..zeros {
        all = (all * 10).min(BEYOND);
    }
    all
}

/// The digits from a place on, as a fraction behind a point, times a scale.
pub(crate) fn other_digits(whole: &[u8], fraction: &[u8], from: usize, scale: u64) -> Between
    requires digits { AllDigits 10 (whole.now ++ fraction.now) }
    requires within { from ≤ length whole.now + length fraction.now }
    requires scale { scale ≤ 10 ^ 9 }
    ensures value { IsBetween result.low result.high
        (digits_value 10 (drop from (whole.now ++ fraction.now)) * scale)
        (10 ^ (length whole.now + length fraction.now - from)) }
    ensures within { result.high ≤ scale }
    ensures ordered { result.low ≤ result.high }
{
    let mut size = Between { low: 0, high: 0 };
    let mut at = whole.len() + fraction.len();
    'digits: while at > from {
        at -= 1;
        size = size.behind_digit(digit_at(whole, fraction, at), scale);
    }
    size
}
