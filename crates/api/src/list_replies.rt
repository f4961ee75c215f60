//! Replies that are lists, made piece by piece.
ghost use Rattle.std.specs.Prelude.{◌≡◌, IfOk, string_bytes};
ghost use Rattle.api.specs.ListReplies.{head_unless};

use http_response::reply_head;
use server::ListText;
use std::alloc::{AllocError, Global};
use std::cmp::min;
use std::marker::Model;

/// How many bytes are reserved for a piece: hardly any is longer.
const LIKELY_PIECE: usize = 270_336;

/// How many of these are reserved for the head of a reply.
const LONGEST_HEAD: usize = 160;

/// The reply that is a list, of which a beginning may be made already. It is seen as what is still to be made of it.
pub struct ListReply {
    /// Whether its head is made.
    begun: bool,
    text: ListText,
}

impl Drop for ListReply {
    // Called where one is dropped; a derived drop is proved anew at each such place.
    fn drop(self) {
        let ListReply {
            begun: _begun,
            text: _text,
        } = self;
    }
}

impl Model for ListReply {
    ghost use Rattle.std.specs.Prelude.{ℕ, List};
    ghost use Rattle.api.specs.ListReplies.{reply_left};

    ghost Value = { List ℕ };

    ghost view = { λ r. reply_left r.begun r.text };
}

/// Returns the head of a reply with a body of this length, unless it is made, with room for what comes next. The error is out of memory.
fn head_unless(alloc: Global, begun: bool, len: usize) -> Result<String, AllocError>
    ensures { IfOk result (λ t. string_bytes t ≡ head_unless begun len) }
{
    let likely = min(len.saturating_add(LONGEST_HEAD), LIKELY_PIECE);
    let mut text = String::with_capacity(alloc, likely)?;
    if !begun {
        let head = reply_head(alloc, 200, len)?;
        text.push_str(head.as_str())?;
    }
    Ok(text)
}

impl ListReply {
    ghost use Rattle.std.specs.Prelude.{◌≡◌, ◌++◌, [], IfErr, IfOk, length, nat_lt};
    ghost use Rattle.spec_http.specs.Replies.{response_text};

    /// Returns the reply with this body.
    pub(crate) fn new(text: ListText) -> ListReply
        ensures { result ≡ response_text 200 text }
    {
        ListReply { begun: false, text }
    }

    /// Returns whether some of it is still to be made.
    pub fn has_more(&self) -> bool
        ensures { result ≡ nat_lt 0 (length self.now) }
    {
        if self.begun {
            self.text.has_more()
        } else {
            true
        }
    }

    /// Makes what comes next, and returns it: the head, if that is to come, and some of the list, up to about 256 KiB. The error is out of
    /// memory: then all is still to be made.
    pub fn next_piece(&mut self, alloc: Global) -> Result<Vec<u8>, AllocError>
        ensures made { IfOk result (λ piece. self.old ≡ piece.items ++ self.new) }
        ensures kept { IfErr result (λ _. self.new ≡ self.old) }
        ensures some { IfOk result (λ piece. piece.items ≡ [] → self.new ≡ []) }
    {
        let mut piece = head_unless(alloc, self.begun, self.text.len())?;
        self.text.push_next(alloc, &mut piece)?;
        self.begun = true;
        Ok(piece.into_bytes())
    }
}
