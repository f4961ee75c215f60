//! Replies whose body is known.
ghost use Rattle.std.specs.Prelude.{◌≡◌, IfOk};
ghost use Rattle.spec_http.specs.Replies.{response_text, reply_text};
ghost use Rattle.spec_api.specs.Replies.{outcome};
ghost use Rattle.spec_api.specs.Verbs.{refused};
ghost use Rattle.object_keys.specs.Faults.{refusal_of};

use crate::heads::push_head;
use object_keys::Fault;
use reply::Reply;
use std::alloc::{AllocError, Global};

/// How many bytes are reserved for a reply beside its body: no head is longer.
const LONGEST_HEAD: usize = 160;

/// Returns the bytes of a reply with a body. The error is out of memory.
pub fn response(alloc: Global, code: u16, body: &str) -> Result<Vec<u8>, AllocError>
    ensures { IfOk result (λ text. text.items ≡ response_text code body.now) }
{
    let framing = format!(in alloc; "Content-Length: {}", body.len())?;
    let mut text = Vec::with_capacity(alloc, body.len().saturating_add(LONGEST_HEAD))?;
    push_head(alloc, &mut text, code, framing.as_str())?;
    text.extend_from_slice(body.as_bytes())?;
    Ok(text)
}

/// Returns the bytes of the reply that refuses a request. The error is out of memory.
pub fn refusal(alloc: Global, fault: &Fault) -> Result<Vec<u8>, AllocError>
    ensures { IfOk result (λ text. text.items ≡ reply_text (outcome (refused (refusal_of fault.now)))) }
{
    let reply = Reply::refusal(alloc, fault)?;
    response(alloc, reply.code, reply.text.as_str())
}
