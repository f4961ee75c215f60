//! Heads of requests, as a client writes them.
ghost use Rattle.std.specs.Prelude.{◌≡◌, ◌++◌, ◌∷◌, OnOk, IfOk, codes};
ghost use Rattle.spec_http.specs.Requests as words;
ghost use Rattle.chunked.specs.Bodies.{crlf};
ghost use Rattle.spec_http.specs.Replies.{line};

use std::alloc::{AllocError, Global};

/// How many bytes are reserved for a head beside its method, target, host and media type.
const MOST_ADDED: usize = 128;

/// Adds a line of a head.
fn push_line(text: &mut Vec<u8>, content: &str) -> Result<(), AllocError>
    ensures { OnOk result (text.new.items ≡ text.old.items ++ line content.now) }
{
    text.extend_from_slice(content.as_bytes())?;
    text.extend_from_slice(b"\r\n")
}

/// Adds a field of a head: its name, with what stands between it and the value, and its value.
fn push_field(text: &mut Vec<u8>, name: &str, value: &str) -> Result<(), AllocError>
    ensures { OnOk result (text.new.items ≡ text.old.items ++ line (name.now ++ value.now)) }
{
    text.extend_from_slice(name.as_bytes())?;
    push_line(text, value)
}

/// Adds the first line of a request.
fn push_request_line(text: &mut Vec<u8>, method: &str, target: &str) -> Result<(), AllocError>
    ensures { OnOk result (text.new.items ≡ text.old.items ++ line (method.now ++ (32 ∷ (target.now ++ codes " HTTP/1.1")))) }
{
    text.extend_from_slice(method.as_bytes())?;
    text.push(b' ')?;
    text.extend_from_slice(target.as_bytes())?;
    text.extend_from_slice(b" HTTP/1.1\r\n")
}

/// Adds the fields of a head, and its empty line.
fn push_fields(
    text: &mut Vec<u8>,
    host: &str,
    media_type: &str,
    digits: &str,
) -> Result<(), AllocError>
    ensures { OnOk result (text.new.items ≡ text.old.items
        ++ (line (codes "Host: " ++ host.now) ++ (line (codes "Content-Type: " ++ media_type.now)
        ++ (line (codes "Content-Length: " ++ digits.now) ++ (line (codes "Connection: close") ++ crlf))))) }
{
    push_field(text, "Host: ", host)?;
    push_field(text, "Content-Type: ", media_type)?;
    push_field(text, "Content-Length: ", digits)?;
    push_line(text, "Connection: close")?;
    text.extend_from_slice(b"\r\n")?;
    Ok(())
}

/// Returns the head of a request of a method for a target of a host, with a body of this media type and of this many bytes
/// (RFC 9112, Message Format). The error is out of memory.
pub fn request_head(
    alloc: Global,
    method: &str,
    target: &str,
    host: &str,
    media_type: &str,
    body_length: usize,
) -> Result<Vec<u8>, AllocError>
    ensures { IfOk result (λ text. text.items ≡ words.request_head method.now target.now host.now media_type.now body_length) }
{
    let digits = body_length.to_string(alloc)?;
    let mut text = Vec::with_capacity(alloc, target.len().saturating_add(MOST_ADDED))?;
    push_request_line(&mut text, method, target)?;
    push_fields(&mut text, host, media_type, digits.as_str())?;
    Ok(text)
}
