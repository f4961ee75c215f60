//! The page token that a text is read as.
ghost use Rattle.std.specs.Prelude.{◌≡◌, ◌≤◌, IfOk, IfErr, Some, option_map, option_and_then};
ghost use Rattle.serde_json.specs.Find.{get, as_str};
ghost use Rattle.serde_json.specs.View.{view};
ghost use Rattle.spec_api.specs.Revisions.{greatest_revision};
ghost use Rattle.pages.specs.Seen.{token_of};
ghost use Rattle.pages.specs.Read.{text_at, token_in, lent_token};
ghost use Rattle.pages.specs.Refused.{RefusesToken, HoldsToken};

use crate::tokens::Token;
use base64::DecodeAllocError;
use base64::engine::general_purpose::URL_SAFE_NO_PAD;
use metadata_values::revisions::read_revision;
use object_keys::Fault;
use serde_json::{Category, Value};
use spec_api::refusals::Part;
use std::alloc::{AllocError, Global};

/// Returns the value that a text has in base64, of whichever form.
pub fn value_of(alloc: Global, text: &str) -> Result<Value, Fault>
    ensures read { IfOk result (λ v. HoldsToken text.now (view v)) }
    ensures refused { IfErr result (RefusesToken text.now) }
{
    let bytes = match URL_SAFE_NO_PAD.decode(alloc, text.as_bytes()) {
        Ok(bytes) => bytes,
        Err(DecodeAllocError::OutOfMemory) => return Err(Fault::NoMemory),
        Err(DecodeAllocError::DecodeError(_)) => return Err(Fault::BadRequest(Part::Token)),
    };
    match Value::from_slice(alloc, bytes.as_slice()) {
        Ok(value) => Ok(value),
        Err(error) => match error.classify() {
            Category::Memory => Err(Fault::NoMemory),
            _ => Err(Fault::BadRequest(Part::Token)),
        },
    }
}

/// The members of a page token, lent.
#[derive(Clone, Copy)]
pub struct Members<'a> {
    name: &'a str,
    namespace: &'a str,
    revision: u64,
}

/// Returns the members of a page token that a value has.
pub fn members_of(value: &Value) -> Option<Members<'_>>
    ensures { option_map lent_token result ≡ token_in (view value.now) }
{
    let name = text_at(value, "name")?;
    let namespace = text_at(value, "namespace")?;
    let revision = read_revision(text_at(value, "rv")?)?;
    Some(Members {
        name,
        namespace,
        revision,
    })
}

/// Returns a member that is a text.
fn text_at<'a>(value: &'a Value, name: &str) -> Option<&'a str>
    ensures { option_map (λ s. s.now) result ≡ text_at name.now (view value.now) }
{
    value.get(name)?.as_str()
}

impl Members<'_> {
    ghost use Rattle.std.specs.Prelude.{◌≡◌, IfOk};
    ghost use Rattle.pages.specs.Seen.{token_of};
    ghost use Rattle.pages.specs.Read.{lent_token};

    /// Returns the token, with texts of its own.
    pub fn to_token(&self, alloc: Global) -> Result<Token, AllocError>
        ensures { IfOk result (λ t. token_of t ≡ lent_token self.now) }
    {
        Ok(Token {
            name: String::from_str(alloc, self.name)?,
            namespace: String::from_str(alloc, self.namespace)?,
            revision: self.revision,
        })
    }
}
