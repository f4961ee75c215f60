//! Bodies of requests.
ghost use Rattle.std.specs.Prelude.{◌≡◌, ◌≤◌, IfOk};
ghost use Rattle.serde_json.specs.Data.{depth};
ghost use Rattle.serde_json.specs.Read.{max_depth};
ghost use Rattle.serde_json.specs.View.{view};
ghost use Rattle.spec_api.specs.Targets.{is_too_long};
ghost use Rattle.request_parts.specs.Seen.{ReadsBody};

use serde_json::Value;
use std::alloc::Global;
use thiserror::Error;

/// The greatest length of a body, in bytes.
pub const LONGEST_BODY: usize = 1_048_576;

/// Returns whether a body is longer than `LONGEST_BODY`.
pub fn is_too_long(text: &[u8]) -> bool
    ensures { result ≡ is_too_long text.now }
{
    text.len() > LONGEST_BODY
}

/// Why a body is not read.
#[derive(Debug, Clone, Copy, Error)]
pub enum BodyFault {
    /// It is no JSON in UTF-8.
    #[error("the body is no JSON")]
    NotJson,
    /// Memory was wanted and refused.
    #[error("out of memory")]
    NoMemory,
}

/// Returns the JSON of a body in UTF-8.
pub fn read_body(alloc: Global, text: &[u8]) -> Result<Value, BodyFault>
    ensures body { ReadsBody text.now result }
    ensures nests { IfOk result (λ value. depth (view value) ≤ max_depth) }
{
    match Value::from_slice(alloc, text) {
        Ok(value) => Ok(value),
        Err(error) if error.is_memory() => Err(BodyFault::NoMemory),
        Err(_) => Err(BodyFault::NotJson),
    }
}
