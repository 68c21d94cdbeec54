//! Decimal numbers times a scale, rounded outward to whole numbers.

ghost use Rattle.std.specs.Prelude.{◌≡◌, ◌+◌, ◌-◌, ◌*◌, ◌^◌, ◌<◌, ◌≤◌, ◌==◌, ◌++◌, length};
ghost use Rattle.std.specs.Prelude.{MatchOption, IfOk, IfErr, IsTrue, false, true, slice_index, pos, neg_ℤ};
ghost use Rattle.std.specs.Prelude.{◌≤ℤ◌};
ghost use Rattle.std.specs.Str.Parse.{AllDigits, digits_value};
ghost use Rattle.fast_float.specs.Text.{minus, digits_of, tens_up, tens_down};
ghost use Rattle.box_import.specs.Decimals.{is_decimal, is_negative, unsigned};
ghost use Rattle.box_import.specs.NumberErrors.{MatchError};
ghost use Rattle.box_import.specs.Decimals.{IsRoundedOutward, IsOutOfRange, IsFraction, IsNear};

use crate::between::{Between, first_digits, other_digits, with_zeros};
use crate::scale::Scale;
use fast_float::Numeral;

/// Why a text is no coordinate.
#[derive(Clone, Copy, PartialEq, Eq, Debug)]
pub enum NumberError {
    /// It is no decimal number.
    NoDecimal,
    /// Times the scale it is beyond a whole number of 32 bits.
    OutOfRange,
    /// It is no whole number, and only those are taken.
    NoWhole,
}

// How many digits an exponent has at most.
const MOST_EXPONENT_DIGITS: usize = 3;

/// A decimal number, as `-12.5` or `1e-3`, times a scale, rounded down and rounded up to whole numbers
/// of 32 bits (docs/COMMANDS.md, "Import"). Where only whole numbers are taken, the two are one.
pub fn scaled(text: &[u8], scale: Scale) -> Result<(i32, i32), NumberError>
    ensures rounded { IfOk result (λ p. IsTrue (is_decimal text.now)
        × IsRoundedOutward p.0 p.1 text.now scale.value) }
    ensures ordered { IfOk result (λ p. p.0 ≤ℤ p.1) }
    ensures whole { IfOk result (λ p. scale.whole_alone ≡ true → p.0 ≡ p.1) }
    ensures refused { IfErr result (λ e. MatchError e (is_decimal text.now ≡ false)
        (IsTrue (is_decimal text.now) × IsOutOfRange text.now scale.value)
        ((scale.whole_alone ≡ true) × IsTrue (is_decimal text.now) × IsFraction text.now scale.value)) }
{
    let (low, high) = rounded(text, scale)?;
    if scale.is_whole_alone() && low != high {
        return Err(NumberError::NoWhole);
    }
    Ok((low, high))
}

// A decimal number times a scale, rounded down and rounded up.
fn rounded(text: &[u8], scale: Scale) -> Result<(i32, i32), NumberError>
    ensures rounded { IfOk result (λ p. IsTrue (is_decimal text.now)
        × IsRoundedOutward p.0 p.1 text.now scale.value) }
    ensures ordered { IfOk result (λ p. p.0 ≤ℤ p.1) }
    ensures refused { IfErr result (λ e. MatchError e (is_decimal text.now ≡ false)
        (IsTrue (is_decimal text.now) × IsOutOfRange text.now scale.value) ⊥) }
{
    let (negative, digits) = signed(text);
    let numeral = Numeral::scan(digits);
    if !numeral.has_digits() || numeral.len() != digits.len() {
        return Err(NumberError::NoDecimal);
    }
    if numeral.exponent().len() > MOST_EXPONENT_DIGITS {
        return Err(NumberError::NoDecimal);
    }
    let size = size_of(&numeral, scale);
    if negative {
        return match below_zero(size) {
            Some(bounds) => Ok(bounds),
            None => Err(NumberError::OutOfRange),
        };
    }
    match from_zero(size) {
        Some(bounds) => Ok(bounds),
        None => Err(NumberError::OutOfRange),
    }
}

// Whether a minus stands first, and what is behind the sign, if there is one.
fn signed(text: &[u8]) -> (bool, &[u8])
    ensures negative { result.0 ≡ is_negative text.now }
    ensures rest { result.1.now ≡ unsigned text.now }
{
    match text {
        [b'-', digits @ ..] => (true, digits),
        [b'+', digits @ ..] => (false, digits),
        _ => (false, text),
    }
}

// A numeral times a scale.
fn size_of(numeral: &Numeral<'_>, scale: Scale) -> Between
    requires { length numeral.now.exponent ≤ 3 }
    ensures value { IsNear result.low result.high
        (digits_of numeral.now * 10 ^ tens_up numeral.now * scale.value) (10 ^ tens_down numeral.now) }
    ensures ordered { result.low ≤ result.high }
{
    let (whole, fraction) = (numeral.whole(), numeral.fraction());
    let power = power_of(numeral.exponent());
    let scale = u64::from(scale.value());
    if numeral.is_exponent_negative() {
        lowered(whole, fraction, power, scale)
    } else {
        raised(whole, fraction, power, scale)
    }
}

// The number of an exponent.
fn power_of(digits: &[u8]) -> usize
    requires digits { AllDigits 10 digits.now }
    requires short { length digits.now ≤ 3 }
    ensures value { result ≡ digits_value 10 digits.now }
    ensures small { result < 1000 }
{
    first_digits(digits, &[], digits.len()) as usize
}

// Digits over ten to the count of the fraction's and to a power, times a scale.
fn lowered(whole: &[u8], fraction: &[u8], power: usize, scale: u64) -> Between
    requires digits { AllDigits 10 (whole.now ++ fraction.now) }
    requires small { power < 1000 }
    requires scale { scale ≤ 10 ^ 9 }
    requires positive { 1 ≤ scale }
    ensures value { IsNear result.low result.high (digits_value 10 (whole.now ++ fraction.now) * scale)
        (10 ^ (length fraction.now + power)) }
    ensures ordered { result.low ≤ result.high }
{
    let from = whole.len().saturating_sub(power);
    let zeros = power.saturating_sub(whole.len());
    let part = other_digits(whole, fraction, from, scale).behind_zeros(zeros, scale);
    part.above(first_digits(whole, fraction, from) * scale)
}

// Digits over ten to the count of the fraction's, times ten to a power and a scale.
fn raised(whole: &[u8], fraction: &[u8], power: usize, scale: u64) -> Between
    requires digits { AllDigits 10 (whole.now ++ fraction.now) }
    requires small { power < 1000 }
    requires scale { scale ≤ 10 ^ 9 }
    requires positive { 1 ≤ scale }
    ensures value { IsNear result.low result.high
        (digits_value 10 (whole.now ++ fraction.now) * 10 ^ power * scale) (10 ^ length fraction.now) }
    ensures ordered { result.low ≤ result.high }
{
    let moved = power.min(fraction.len());
    let from = whole.len() + moved;
    let number = with_zeros(first_digits(whole, fraction, from), power - moved);
    other_digits(whole, fraction, from, scale).above(number * scale)
}

// A size as two coordinates.
fn from_zero(size: Between) -> Option<(i32, i32)>
    requires { size.low ≤ size.high }
    ensures { MatchOption result (2 ^ 31 ≤ size.high)
        (λ p. (p.0 ≡ pos size.low) × (p.1 ≡ pos size.high) × (size.high < 2 ^ 31)) }
{
    if size.high < 1 << 31 {
        Some((size.low as i32, size.high as i32))
    } else {
        None
    }
}

// A size with a minus, as two coordinates.
fn below_zero(size: Between) -> Option<(i32, i32)>
    requires { size.low ≤ size.high }
    ensures { MatchOption result (2 ^ 31 < size.high)
        (λ p. (p.0 ≡ neg_ℤ (pos size.high)) × (p.1 ≡ neg_ℤ (pos size.low)) × (size.high ≤ 2 ^ 31)) }
{
    if size.high <= 1 << 31 {
        Some(((-(size.high as i64)) as i32, (-(size.low as i64)) as i32))
    } else {
        None
    }
}
