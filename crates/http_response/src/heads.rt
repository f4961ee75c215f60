//! Heads of replies.
ghost use Rattle.std.specs.Prelude.{◌≡◌, ◌++◌, ◌∷◌, IfOk, OnOk, codes, decimal, string_bytes};
ghost use Rattle.spec_http.specs.Replies.{line, phrase, head_text};
ghost use Rattle.http_response.specs.Heads.{flat_head};

use std::alloc::{AllocError, Global};

/// Returns the phrase of a status code, nothing where none is answered.
pub(crate) fn phrase(code: u16) -> &'static str
    ensures { result.now ≡ phrase code }
{
    match code {
        200 => "OK",
        201 => "Created",
        202 => "Accepted",
        400 => "Bad Request",
        404 => "Not Found",
        405 => "Method Not Allowed",
        409 => "Conflict",
        410 => "Gone",
        411 => "Length Required",
        413 => "Payload Too Large",
        415 => "Unsupported Media Type",
        422 => "Unprocessable Entity",
        503 => "Service Unavailable",
        504 => "Gateway Timeout",
        507 => "Insufficient Storage",
        _ => "",
    }
}

/// Adds a line of a head.
fn push_line(text: &mut Vec<u8>, content: &str) -> Result<(), AllocError>
    ensures { OnOk result (text.new.items ≡ text.old.items ++ line content.now) }
{
    text.extend_from_slice(content.as_bytes())?;
    text.extend_from_slice(b"\r\n")
}

/// Adds the first line of a reply.
fn push_status_line(alloc: Global, text: &mut Vec<u8>, code: u16) -> Result<(), AllocError>
    ensures { OnOk result (text.new.items
        ≡ text.old.items ++ line (codes "HTTP/1.1 " ++ (decimal code ++ (32 ∷ phrase code)))) }
{
    let digits = code.to_string(alloc)?;
    text.extend_from_slice(b"HTTP/1.1 ")?;
    text.extend_from_slice(digits.as_bytes())?;
    text.push(b' ')?;
    push_line(text, phrase(code))
}

/// Returns the parts of a head of a reply with a body of this length, one after another.
fn head_in_parts(alloc: Global, code: u16, body_len: usize) -> Result<String, AllocError>
    ensures { IfOk result (λ t. string_bytes t ≡ flat_head code body_len) }
{
    format!(in alloc;
        "HTTP/1.1 {code} {}\r\nContent-Type: application/json\r\nContent-Length: {body_len}\r\nConnection: close\r\n\r\n",
        phrase(code)
    )
}

/// Returns the head of a reply with a body of this length. The error is out of memory.
pub fn reply_head(alloc: Global, code: u16, body_len: usize) -> Result<String, AllocError>
    ensures { IfOk result (λ t. string_bytes t ≡ head_text code (codes "Content-Length: " ++ decimal body_len)) }
{
    head_in_parts(alloc, code, body_len)
}

/// Adds the head of a reply, with a field that says where its body ends. The error is out of memory; a beginning of the head
/// may then have been added.
pub(crate) fn push_head(
    alloc: Global,
    text: &mut Vec<u8>,
    code: u16,
    framing: &str,
) -> Result<(), AllocError>
    ensures { OnOk result (text.new.items ≡ text.old.items ++ head_text code framing.now) }
{
    push_status_line(alloc, text, code)?;
    push_line(text, "Content-Type: application/json")?;
    push_line(text, framing)?;
    push_line(text, "Connection: close")?;
    text.extend_from_slice(b"\r\n")
}
