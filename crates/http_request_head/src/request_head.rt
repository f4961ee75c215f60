//! Heads as their parts.
ghost use Rattle.std.specs.Prelude.{◌≡◌, IfOk, map, length, All};
ghost use Rattle.httparse.specs.Spans.{IsRequestWithin, IsRequestAt, IsRequestOf, span_bytes, header_bytes, IsHeaderWithin};
ghost use Rattle.httparse.specs.Grammar as grammar;
ghost use Rattle.spec_http.specs.Heads.{head_of};
ghost use Rattle.http_request_head.specs.Fields.{field_seen};
ghost use Rattle.http_request_head.specs.RequestHeads.{head_seen};

use crate::field::HeaderField;
use httparse::spans::{HeaderSpan, RequestSpans};
use std::alloc::{AllocError, Global};

/// What counts of a request's head (RFC 9112, Request Line).
#[derive(Drop)]
pub struct RequestHead<'a> {
    pub method: &'a [u8],
    pub target: &'a str,
    /// The minor version of HTTP/1.
    pub minor: u8,
    pub fields: Vec<HeaderField<'a>>,
}

/// Returns the fields that spans cover.
pub fn fields_of<'a>(
    alloc: Global,
    bytes: &'a [u8],
    spans: &[HeaderSpan],
) -> Result<Vec<HeaderField<'a>>, AllocError>
    requires { All (IsHeaderWithin (length bytes.now)) spans.now }
    ensures { IfOk result (λ fields. map field_seen fields.items ≡ map (header_bytes bytes.now) spans.now) }
{
    let mut fields = Vec::with_capacity(alloc, spans.len())?;
    for span in spans {
        let name = span.name.of(bytes);
        let value = span.value.of(bytes);
        fields.push(HeaderField { name, value })?;
    }
    Ok(fields)
}

/// Returns the target of the head that was found at the front of these bytes, which is a text.
fn target_of<'a>(bytes: &'a [u8], found: RequestSpans, spans: &[HeaderSpan]) -> &'a str
    requires within { IsRequestWithin bytes.now spans.now found }
    requires head { IsRequestOf bytes.now spans.now found }
    ensures { result.now ≡ span_bytes bytes.now found.path }
{
    match str::from_utf8(found.path.of(bytes)) {
        Ok(target) => target,
        Err(_) => unreachable!(),
    }
}

impl<'a> RequestHead<'a> {
    /// Returns the parts of the head that was found at the front of these bytes.
    pub fn new(
        alloc: Global,
        bytes: &'a [u8],
        found: RequestSpans,
        spans: &[HeaderSpan],
    ) -> Result<RequestHead<'a>, AllocError>
        requires within { IsRequestWithin bytes.now spans.now found }
        requires head { IsRequestOf bytes.now spans.now found }
        ensures { IfOk result (λ view. (h : grammar.RequestHead) → IsRequestAt bytes.now spans.now found h
            → head_seen view ≡ head_of h) }
    {
        let fields = fields_of(alloc, bytes, &spans[..found.headers])?;
        Ok(RequestHead {
            method: found.method.of(bytes),
            target: target_of(bytes, found, spans),
            minor: found.version,
            fields,
        })
    }
}
