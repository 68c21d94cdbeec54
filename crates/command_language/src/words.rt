//! The words of a line, and the numbers that words are.

ghost use Rattle.std.specs.Prelude.{◌≡◌, ◌+◌, ◌*◌, ◌^◌, ◌<◌, ◌≤◌, ◌↔◌};
ghost use Rattle.std.specs.Prelude.{[], ◌∷◌, length, not, true, false, MatchOption, IsTrue};
ghost use Rattle.std.specs.List.{prefix_len};
ghost use Rattle.std.specs.Char.{is_ascii_digit, digit_value};
ghost use Rattle.command_language.specs.Lines.{is_blank, words_of};
ghost use Rattle.command_language.specs.Numbers.{number_in, coordinate_of};

use std::marker::Model;

/// What is left of a line. Contracts see the words in it.
#[derive(Drop)]
pub struct Words<'a> {
    rest: &'a [u8],
}

impl<'a> Model for Words<'a> {
    ghost use Rattle.std.specs.Prelude.{List, ℕ};
    ghost use Rattle.command_language.specs.Lines.{words_of};

    ghost Value = { List (List ℕ) };

    ghost view = { λ w. words_of w.rest.now };
}

impl<'a> Words<'a> {
    /// The words of a line.
    pub fn new(line: &'a [u8]) -> Self
        ensures { result ≡ words_of line.now }
    {
        Words { rest: line }
    }

    /// Takes the next word.
    pub fn next(&mut self) -> Option<&'a [u8]>
        ensures { MatchOption result (self.old ≡ []) (λ word. self.old ≡ word.now ∷ self.new) }
    {
        let (_, from) = self.rest.split_at(blank_len(self.rest));
        let len = word_len(from);
        if len == 0 {
            return None;
        }
        let (word, rest) = from.split_at(len);
        self.rest = rest;
        Some(word)
    }
}

impl Words<'_> {
    /// Whether no word is left.
    pub fn is_done(&mut self) -> bool
        ensures { IsTrue result ↔ (self.old ≡ []) }
    {
        self.next().is_none()
    }
}

// How many blanks stand in front.
fn blank_len(bytes: &[u8]) -> usize
    ensures count { result ≡ prefix_len is_blank bytes.now }
    ensures bound { result ≤ length bytes.now }
{
    bytes.iter().take_while(|byte| is_blank(**byte)).count()
}

// How many bytes stand before the first blank.
fn word_len(bytes: &[u8]) -> usize
    ensures count { result ≡ prefix_len (λ byte. not (is_blank byte)) bytes.now }
    ensures bound { result ≤ length bytes.now }
{
    bytes.iter().take_while(|byte| !is_blank(**byte)).count()
}

fn is_blank(byte: u8) -> bool
    ensures { result ≡ is_blank byte }
{
    matches!(byte, b' ' | b'\t' | b'\r')
}

/// The number that a word is: digits with a value below 2^64.
pub fn number(word: &[u8]) -> Option<u64>
    ensures { result ≡ number_in word.now }
{
    if word.is_empty() {
        return None;
    }
    if word.len() <= MOST_FITTING {
        return fitting_number(word);
    }
    let mut value = 0;
    for byte in word {
        value = followed_by(value, digit(*byte)?)?;
    }
    Some(value)
}

// So many digits or fewer have a value below 2^64.
const MOST_FITTING: usize = 19;

// The number that a word of at most so many bytes is. No digit makes it too large, so none is tested for
// that.
fn fitting_number(word: &[u8]) -> Option<u64>
    requires some { 0 < length word.now }
    requires short { length word.now ≤ 19 }
    ensures { result ≡ number_in word.now }
{
    let mut value = 0;
    for byte in word {
        value = value * 10 + digit(*byte)?;
    }
    Some(value)
}

// The value of a decimal digit.
fn digit(byte: u8) -> Option<u64>
    ensures { MatchOption result (is_ascii_digit byte ≡ false)
        (λ d. (is_ascii_digit byte ≡ true) × (d ≡ digit_value byte)) }
{
    if byte.is_ascii_digit() {
        Some(u64::from(byte - b'0'))
    } else {
        None
    }
}

// The value of a numeral with a digit after it.
fn followed_by(value: u64, digit: u64) -> Option<u64>
    ensures { MatchOption result (2 ^ 64 ≤ value * 10 + digit)
        (λ next. (next ≡ value * 10 + digit) × (next < 2 ^ 64)) }
{
    value.checked_mul(10)?.checked_add(digit)
}

/// The coordinate that a word is: a number of 32 bits, which a minus may stand before.
pub fn coordinate(word: &[u8]) -> Option<i32>
    ensures { result ≡ coordinate_of word.now }
{
    match word {
        [b'-', digits @ ..] => {
            let size = number(digits)?;
            if size <= 1 << 31 {
                Some((-(size as i64)) as i32)
            } else {
                None
            }
        }
        _ => i32::try_from(number(word)?).ok(),
    }
}
