//! The strings and numbers of JSON.

ghost use Rattle.std.specs.Prelude.{◌≡◌, ◌^◌, ◌<◌, ◌≤◌, length, IfSome};

use fast_float::Numeral;

/// How long a string is up to its closing quote, if it is one of JSON. The text begins behind the opening
/// quote.
pub(crate) fn string_len(text: &[u8]) -> Option<usize>
    ensures { IfSome result (λ n. n < length text.now) }
{
    let mut at = 0;
    'bytes: while at < text.len() {
        match text[at] {
            b'"' => return Some(at),
            b'\\' => at += escape_len(&text[at..])?,
            0..=0x1f => return None,
            _ => at += 1,
        }
    }
    None
}

// How long the escape at the beginning of a text is.
fn escape_len(text: &[u8]) -> Option<usize>
    ensures some { IfSome result (λ n. 2 ≤ n) }
    ensures few { IfSome result (λ n. n ≤ 6) }
{
    match text {
        [
            _,
            b'"' | b'\\' | b'/' | b'b' | b'f' | b'n' | b'r' | b't',
            ..
        ] => Some(2),
        [_, b'u', a, b, c, d, ..] => {
            code_of(*a, *b, *c, *d)?;
            Some(6)
        }
        _ => None,
    }
}

// The code of four digits of base 16.
fn code_of(a: u8, b: u8, c: u8, d: u8) -> Option<u32>
    ensures { IfSome result (λ code. code < 2 ^ 16) }
{
    let high = hex_digit(a)? * 16 + hex_digit(b)?;
    let low = hex_digit(c)? * 16 + hex_digit(d)?;
    Some(high * 256 + low)
}

// The value of a digit of base 16.
fn hex_digit(byte: u8) -> Option<u32>
    ensures { IfSome result (λ digit. digit < 16) }
{
    match byte {
        b'0'..=b'9' => Some(u32::from(byte - b'0')),
        b'a'..=b'f' => Some(u32::from(byte - b'a') + 10),
        b'A'..=b'F' => Some(u32::from(byte - b'A') + 10),
        _ => None,
    }
}

/// Whether a string, given between its quotes, spells a name, its escapes read.
pub(crate) fn spells(string: &[u8], name: &[u8]) -> bool {
    let mut string = string;
    let mut name = name;
    'bytes: while let [first, others @ ..] = string {
        if *first == b'\\' {
            match after_escape(string, name) {
                Some((more, rest)) => {
                    string = more;
                    name = rest;
                }
                None => return false,
            }
        } else {
            match name {
                [byte, rest @ ..] if byte == first => {
                    string = others;
                    name = rest;
                }
                _ => return false,
            }
        }
    }
    name.is_empty()
}

// What is left of a string that begins with an escape and of a name, if the name begins with the character.
fn after_escape<'a, 'n>(string: &'a [u8], name: &'n [u8]) -> Option<(&'a [u8], &'n [u8])>
    ensures { IfSome result (λ left. length left.0.now < length string.now) }
{
    let (character, rest) = escaped(string)?;
    let mut bytes = [0; 4];
    let spelled = character.encode_utf8(&mut bytes).as_bytes();
    Some((rest, name.strip_prefix(spelled)?))
}

// The character of an escape at the beginning of a string, and what is behind it.
fn escaped(string: &[u8]) -> Option<(char, &[u8])>
    ensures { IfSome result (λ left. length left.1.now < length string.now) }
{
    match string {
        [_, b'u', a, b, c, d, rest @ ..] => {
            let first = code_of(*a, *b, *c, *d)?;
            match char::from_u32(first) {
                Some(character) => Some((character, rest)),
                None => surrogate_pair(first, rest),
            }
        }
        [_, byte, rest @ ..] => Some((plain_escape(*byte)?, rest)),
        _ => None,
    }
}

// The character of two halves, of which the second is at the beginning of a string.
fn surrogate_pair(first: u32, string: &[u8]) -> Option<(char, &[u8])>
    ensures { IfSome result (λ left. length left.1.now ≤ length string.now) }
{
    match string {
        [b'\\', b'u', a, b, c, d, rest @ ..] => {
            let second = code_of(*a, *b, *c, *d)?;
            let high = first.checked_sub(0xd800)?;
            let low = second.checked_sub(0xdc00)?;
            if high >= 0x400 || low >= 0x400 {
                return None;
            }
            Some((char::from_u32(0x10000 + high * 0x400 + low)?, rest))
        }
        _ => None,
    }
}

// The character of an escape of two bytes, by its second.
fn plain_escape(byte: u8) -> Option<char> {
    match byte {
        b'"' => Some('"'),
        b'\\' => Some('\\'),
        b'/' => Some('/'),
        b'b' => Some('\u{8}'),
        b'f' => Some('\u{c}'),
        b'n' => Some('\n'),
        b'r' => Some('\r'),
        b't' => Some('\t'),
        _ => None,
    }
}

/// How long the number at the beginning of a text is, if one of JSON is there.
pub(crate) fn number_len(text: &[u8]) -> Option<usize>
    ensures { IfSome result (λ n. n ≤ length text.now) }
{
    let sign = if text.first() == Some(&b'-') { 1 } else { 0 };
    let digits = &text[sign..];
    let numeral = Numeral::scan(digits);
    let whole = numeral.whole();
    if whole.is_empty() || (whole.len() > 1 && whole[0] == b'0') {
        return None;
    }
    if numeral.has_point() && numeral.fraction().is_empty() {
        return None;
    }
    Some(sign + numeral.len())
}
