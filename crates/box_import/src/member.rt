//! Members of a feature: what is wrong with one, and the numbers that they are.

use crate::error::Why;
use crate::fields::whole_number;
use crate::json::Json;

/// What is wrong with a member of a feature.
#[derive(Clone, Copy, Drop)]
pub(crate) struct MemberFault<'a> {
    /// The member's name.
    pub member: &'a [u8],
    /// What stands there.
    pub text: &'a [u8],
    /// What is wrong with it.
    pub why: Why,
}

impl<'a> MemberFault<'a> {
    /// A fault of this text.
    pub fn new(member: &'a [u8], text: &'a [u8], why: Why) -> MemberFault<'a> {
        MemberFault { member, text, why }
    }
}

/// What is left of a line is no JSON.
pub(crate) fn no_json<'a>(member: &'a [u8], json: &Json<'a>) -> MemberFault<'a> {
    MemberFault::new(member, json.rest(), Why::NoJson)
}

/// Takes a value, and gives its text.
pub(crate) fn value_at<'a>(
    json: &mut Json<'a>,
    member: &'a [u8],
) -> Result<&'a [u8], MemberFault<'a>> {
    let mut at = *json;
    let value = json.value();
    match value {
        Some(text) => Ok(text),
        None => {
            let _first = at.peek();
            Err(no_json(member, &at))
        }
    }
}

/// The whole number that a value is, in digits or in a string of digits; none where it is `null`.
pub(crate) fn number_in<'a>(
    value: &'a [u8],
    member: &'a [u8],
    why: Why,
) -> Result<Option<u64>, MemberFault<'a>> {
    let digits = match value {
        b"null" => return Ok(None),
        [b'"', digits @ .., b'"'] => digits,
        _ => value,
    };
    match whole_number(digits) {
        Some(number) => Ok(Some(number)),
        None => Err(MemberFault::new(member, value, why)),
    }
}
