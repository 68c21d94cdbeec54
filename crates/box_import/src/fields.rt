//! The whole numbers that texts are.

ghost use Rattle.std.specs.Prelude.{◌≡◌, ◌^◌, ◌<◌};
ghost use Rattle.std.specs.Option.{SomeIff};
ghost use Rattle.std.specs.Str.Parse.{IsNumeral, digits_value};

/// The whole number that a text is: digits alone, with a value below 2^64.
pub fn whole_number(text: &[u8]) -> Option<u64>
    ensures { SomeIff result (IsNumeral 10 text.now × (digits_value 10 text.now < 2 ^ 64))
        (digits_value 10 text.now) }
{
    if text.first() == Some(&b'+') {
        return None;
    }
    match fast_float::parse_u64(text) {
        Ok(number) => Some(number),
        Err(_) => None,
    }
}
