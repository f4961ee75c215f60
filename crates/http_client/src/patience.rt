//! How long a server asks to be left alone.
ghost use Rattle.std.specs.Prelude.{◌≡◌, map};
ghost use Rattle.http_request_head.specs.Fields.{field_seen};
ghost use Rattle.http_client.specs.Patience.{retry_after, seconds_in};

use http_request_head::body_length::{is_number, number_of};
use http_request_head::field::{HeaderField, first_value};

/// The longest time that is heeded, in seconds: what asks for more asks for this, so that nobody sleeps for days.
const LONGEST_SECONDS: u16 = 3600;

/// Returns how many seconds a text is; none where it is not digits alone, as a date is.
fn seconds_in(text: &[u8]) -> Option<u16>
    ensures { result ≡ seconds_in text.now }
{
    if !is_number(text) {
        return None;
    }
    match number_of(text, usize::from(LONGEST_SECONDS)) {
        Some(seconds) => Some(seconds as u16),
        None => Some(LONGEST_SECONDS),
    }
}

/// Returns how many seconds the fields of a head ask for, if they do; the first such field counts (RFC 9110, Retry-After).
pub fn retry_after_of(fields: &[HeaderField<'_>]) -> Option<u16>
    ensures { result ≡ retry_after (map field_seen fields.now) }
{
    match first_value(fields, b"retry-after") {
        Some(text) => seconds_in(text),
        None => None,
    }
}
