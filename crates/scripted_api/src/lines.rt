//! Requests as lines.
ghost use Rattle.std.specs.Prelude.{◌≡◌, ◌++◌, ◌∷◌, IfOk, IfErr, OnOk, OnErr, string_bytes, true, false};
ghost use Rattle.request_encoding.specs.Texts.{can_be_told};
ghost use Rattle.request_parts.specs.Requests.{request_of};
ghost use Rattle.scripted_api.specs.Played.{IsLineOf, text_line};

use api_client::outgoing::method_text;
use request_encoding::{RequestText, can_be_told, request_text};
use request_parts::Request;
use std::alloc::{AllocError, Global};

/// Returns the line of what a request is asked by.
fn text_line(alloc: Global, text: &RequestText) -> Result<String, AllocError>
    ensures { IfOk result (λ line. string_bytes line ≡ text_line text.now) }
{
    let mut line = String::from_str(alloc, method_text(text.method))?;
    line.push_str(" ")?;
    line.push_str(text.target.as_str())?;
    line.push_str(" ")?;
    line.push_str(text.body.as_str())?;
    Ok(line)
}

/// Returns a request of one object as a line: its method, its target and its body, with a blank between them, as `GET
/// /api/v1/namespaces/default/pods/a `. There is none where it cannot be told over HTTP. The error is running out of memory.
pub fn line_of(alloc: Global, request: &Request) -> Result<Option<String>, AllocError>
    ensures { IfOk result (IsLineOf (request_of request.now)) }
{
    if !can_be_told(request) {
        return Ok(None);
    }
    let text = request_text(alloc, request)?;
    Ok(Some(text_line(alloc, &text)?))
}
