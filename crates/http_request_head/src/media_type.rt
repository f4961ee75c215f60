//! Media types without their parameters, and which one the fields of a head name.
ghost use Rattle.std.specs.Prelude.{◌≡◌, MatchOption, Some, None, map, reverse, codes, ◌==◌};
ghost use Rattle.std.specs.List.{before_first};
ghost use Rattle.httparse.specs.Grammar.{is_ows, skip_ows, trim_ows};
ghost use Rattle.spec_http.specs.Heads.{values_of, without_parameters, first_type};
ghost use Rattle.http_request_head.specs.Fields.{field_seen};

use crate::field::{HeaderField, first_value};

/// Returns the bytes from the first that is no white space.
fn skip_ows(text: &[u8]) -> &[u8]
    ensures { result.now ≡ skip_ows text.now }
{
    let mut rest = text;
    for _ in 0..text.len() {
        match rest {
            [first, tail @ ..] => {
                if *first != b' ' && *first != b'\t' {
                    return rest;
                }
                rest = tail;
            }
            [] => return rest,
        }
    }
    rest
}

/// Returns the bytes up to the last that is no white space.
fn skip_ows_at_end(text: &[u8]) -> &[u8]
    ensures { result.now ≡ reverse (skip_ows (reverse text.now)) }
{
    let mut rest = text;
    for _ in 0..text.len() {
        match rest {
            [front @ .., last] => {
                if *last != b' ' && *last != b'\t' {
                    return rest;
                }
                rest = front;
            }
            [] => return rest,
        }
    }
    rest
}

/// Returns the bytes before the first semicolon.
fn before_semicolon(text: &[u8]) -> &[u8]
    ensures { result.now ≡ before_first (λ b. b == 59) text.now }
{
    let mut length = 0;
    for byte in text {
        if *byte == b';' {
            return &text[..length];
        }
        length += 1;
    }
    text
}

/// Returns a media type without its parameters (RFC 9110, Media Type).
fn without_parameters(value: &[u8]) -> &[u8]
    ensures { result.now ≡ without_parameters value.now }
{
    skip_ows_at_end(skip_ows(before_semicolon(value)))
}

/// Returns the media type of a body, without parameters, if the fields of its head name one; the first counts
/// (RFC 9110, Content-Type).
pub fn media_type<'a>(fields: &[HeaderField<'a>]) -> Option<&'a [u8]>
    ensures { MatchOption result (first_type (values_of (codes "content-type") (map field_seen fields.now)) ≡ None)
        (λ t. first_type (values_of (codes "content-type") (map field_seen fields.now)) ≡ Some t.now) }
{
    match first_value(fields, b"content-type") {
        None => None,
        Some(value) => Some(without_parameters(value)),
    }
}
