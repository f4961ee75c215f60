//! Requests, as they are written.
ghost use Rattle.std.specs.Prelude.{◌≡◌, IfOk};
ghost use Rattle.http_client.specs.Calls.{text_of};

use spec_http::request_head;
use std::alloc::{AllocError, Global};

/// A request as it is written (RFC 9112, Message Format).
#[derive(Clone, Copy)]
pub struct Outgoing<'a> {
    pub method: &'a str,
    pub target: &'a str,
    pub host: &'a str,
    pub media_type: &'a str,
    pub body: &'a [u8],
}

/// Returns the text of a request.
pub fn text_of(alloc: Global, request: Outgoing<'_>) -> Result<Vec<u8>, AllocError>
    ensures { IfOk result (λ text. text.items ≡ text_of request.entry) }
{
    let mut text = request_head(
        alloc,
        request.method,
        request.target,
        request.host,
        request.media_type,
        request.body.len(),
    )?;
    text.extend_from_slice(request.body)?;
    Ok(text)
}
