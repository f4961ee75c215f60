//! How long a body is, as its head says.
ghost use Rattle.std.specs.Prelude.{◌≡◌, ◌≤◌, ◌<◌, ◌^◌, IfSome, map, true, None, IsTrue, codes};
ghost use Rattle.std.specs.Str.Parse.{digits_value};
ghost use Rattle.spec_api.specs.Targets.{longest_body};
ghost use Rattle.spec_http.specs.Heads.{values_of, is_number, one_number, length_in};
ghost use Rattle.http_request_head.specs.Fields.{field_seen, IsLength};

use crate::field::{HeaderField, count, first_value};

/// What a head states of its body's length.
#[derive(Clone, Copy, PartialEq, Eq)]
pub enum BodyLength {
    /// Nothing.
    Missing,
    /// What is no length, or several.
    Bad,
    /// More than a body may have.
    TooLong,
    /// A length.
    Stated(usize),
}

/// The greatest length of a body.
pub const LONGEST_BODY: usize = 1_048_576;

/// Returns whether a text is one digit or more, and nothing else.
pub fn is_number(text: &[u8]) -> bool
    ensures { result ≡ is_number text.now }
{
    for byte in text {
        if !byte.is_ascii_digit() {
            return false;
        }
    }
    !text.is_empty()
}

/// Returns the number that digits write, however many, if it is not above a limit.
#[tactic(auto, using(crate::proofs::Numbers::grows))]
pub fn number_of(text: &[u8], limit: usize) -> Option<usize>
    requires digits { IsTrue (is_number text.now) }
    requires limit { limit ≤ 2 ^ 59 }
    ensures some { IfSome result (λ n. n ≡ digits_value 10 text.now) }
    ensures limit { IfSome result (λ n. n ≤ limit) }
    ensures none { result ≡ None → limit < digits_value 10 text.now }
{
    let mut number = 0;
    for byte in text {
        if number > limit {
            return None;
        }
        number = number * 10 + usize::from(*byte - b'0');
    }
    if number > limit {
        return None;
    }
    Some(number)
}

/// Returns the length that a value states.
fn length_of(text: &[u8]) -> BodyLength
    ensures { IsLength (one_number text.now) result }
{
    if !is_number(text) {
        return BodyLength::Bad;
    }
    match number_of(text, LONGEST_BODY) {
        Some(n) => BodyLength::Stated(n),
        None => BodyLength::TooLong,
    }
}

/// Returns what the fields of a head state of its body's length (RFC 9110, Content-Length).
pub fn content_length(fields: &[HeaderField<'_>]) -> BodyLength
    ensures { IsLength (length_in (values_of (codes "content-length") (map field_seen fields.now))) result }
{
    match first_value(fields, b"content-length") {
        None => BodyLength::Missing,
        Some(text) => {
            if count(fields, b"content-length") > 1 {
                BodyLength::Bad
            } else {
                length_of(text)
            }
        }
    }
}
