//! The lines that are written of a reply that came over a connection: a code and a text, or the frames of a watch.
ghost use Rattle.std.specs.Prelude.{◌≡◌, ◌==◌, IfOk, count_by};
ghost use Rattle.kcp_lines.specs.Replies.{line_text, is_of_lines, watch_text, reply_text};

use http_client::HttpReply;
use http_client::statuses::OK;
use std::alloc::{AllocError, Global};

/// Returns a code, a space, a text and the end of the line.
fn line(alloc: Global, code: u16, text: &[u8]) -> Result<Vec<u8>, AllocError>
    ensures { IfOk result (λ l. l.items ≡ line_text code text.now) }
{
    let digits = code.to_string(alloc)?;
    let mut line = Vec::new(alloc);
    line.extend_from_slice(digits.as_bytes())?;
    line.push(b' ')?;
    line.extend_from_slice(text)?;
    line.push(b'\n')?;
    Ok(line)
}

/// Returns whether a body is one of a watch: each frame ends its line, and no other body does.
fn is_of_watch(body: &[u8]) -> bool
    ensures { result ≡ is_of_lines body.now }
{
    let len = body.len();
    len == 0 || body[len - 1] == b'\n'
}

/// Returns how many lines a text ends.
fn count_lines(text: &[u8]) -> usize
    ensures { result ≡ count_by (λ byte. byte == 10) text.now }
{
    text.iter().filter(|byte| **byte == b'\n').count()
}

/// Returns the lines of the reply to a watch: how many frames it gave, and these. The error is running out of memory.
fn watch_lines(alloc: Global, body: &[u8]) -> Result<Vec<u8>, AllocError>
    ensures { IfOk result (λ l. l.items ≡ watch_text body.now) }
{
    let count = count_lines(body);
    let head = format!(in alloc; "200 watch {count}\n")?;
    let mut lines = Vec::new(alloc);
    lines.extend_from_slice(head.as_bytes())?;
    lines.extend_from_slice(body)?;
    Ok(lines)
}

/// Returns the lines of a reply: its code and its body; of a watch first how many frames it gave, and then these. The error is running out
/// of memory.
pub fn reply_lines(alloc: Global, reply: &HttpReply) -> Result<Vec<u8>, AllocError>
    ensures { IfOk result (λ l. l.items ≡ reply_text reply.now.code reply.now.body.items) }
{
    let body = reply.body.as_slice();
    if reply.code == OK && is_of_watch(body) {
        watch_lines(alloc, body)
    } else {
        line(alloc, reply.code, body)
    }
}
