//! What a client is sent: a status code and a body; of a refusal its Status.

use crate::statuses::{code, text};
use object_keys::Fault;
use std::alloc::{AllocError, Global};

/// What a client is sent: an HTTP status code, and a body.
#[derive(Drop)]
pub struct Reply {
    /// The HTTP status code.
    pub code: u16,
    /// The body, compact JSON.
    pub text: String,
}

impl Reply {
    ghost use Rattle.std.specs.Prelude.{◌≡◌, IfOk, string_bytes};
    ghost use Rattle.serde_json.specs.Written.{compact_text};
    ghost use Rattle.spec_api.specs.Refusals.{code, status_body};
    ghost use Rattle.object_keys.specs.Faults.{refusal_of};

    /// Returns the reply that refuses a request. The error is running out of memory.
    pub fn refusal(alloc: Global, fault: &Fault) -> Result<Reply, AllocError>
        ensures code { IfOk result (λ reply. reply.code ≡ code (refusal_of fault.now)) }
        ensures text { IfOk result (λ reply. string_bytes reply.text
            ≡ compact_text (status_body (refusal_of fault.now))) }
    {
        let text = text(alloc, fault)?;
        Ok(Reply {
            code: code(fault),
            text,
        })
    }
}
