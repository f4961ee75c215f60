//! How the end of a reply's body is known.
ghost use Rattle.std.specs.Prelude.{map};
ghost use Rattle.spec_http.specs.Heads.{one_number};
ghost use Rattle.http_request_head.specs.Fields.{field_seen};
ghost use Rattle.http_client.specs.Heads.{IsFramed, IsFramedByLength};

use http_request_head::body_length::{is_number, number_of};
use http_request_head::field::{HeaderField, count, first_value};

/// How the end of a reply's body is known (RFC 9112, Message Body Length).
#[derive(Clone, Copy)]
pub enum Framing {
    /// By its length, in bytes.
    Length(usize),
    /// By its length, which is more than the limit.
    TooLong,
    /// By its last chunk.
    Chunked,
    /// In another way, or not at all.
    Other,
}

/// Returns how the end of a body is known whose length is this text, where so many bytes are read at most.
fn framing_by_length(text: &[u8], most: u32) -> Framing
    ensures { IsFramedByLength most (one_number text.now) result }
{
    if !is_number(text) {
        return Framing::Other;
    }
    match number_of(text, most as usize) {
        Some(length) => Framing::Length(length),
        None => Framing::TooLong,
    }
}

/// Returns how the end of a body is known by the fields of its head, where so many bytes are read at most.
pub fn framing_of(fields: &[HeaderField<'_>], most: u32) -> Framing
    ensures { IsFramed most (map field_seen fields.now) result }
{
    match first_value(fields, b"transfer-encoding") {
        Some(coding) => {
            if count(fields, b"transfer-encoding") != 1 {
                Framing::Other
            } else if coding.eq_ignore_ascii_case(b"chunked") {
                Framing::Chunked
            } else {
                Framing::Other
            }
        }
        None => match first_value(fields, b"content-length") {
            Some(text) => {
                if count(fields, b"content-length") != 1 {
                    Framing::Other
                } else {
                    framing_by_length(text, most)
                }
            }
            None => Framing::Other,
        },
    }
}
