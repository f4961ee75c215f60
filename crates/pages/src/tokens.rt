//! The tokens by which clients ask for the next page, and their texts.
ghost use Rattle.std.specs.Prelude.{◌≡◌, IfOk, IfErr, string_bytes};

use crate::reading::{members_of, value_of};
use base64::engine::general_purpose::URL_SAFE_NO_PAD;
use meta::Member;
use object_keys::Fault;
use serde_json::{Map, Value};
use spec_api::refusals::Part;
use std::alloc::{AllocError, Global};

/// Where a page ended, and the revision of its list: what a client gives back to ask for the next page.
pub struct Token {
    /// The name of the page's last object.
    pub name: String,
    /// The namespace of the page's last object.
    pub namespace: String,
    /// The revision of the list.
    pub revision: u64,
}

impl Drop for Token {
    // Called where one is dropped; a derived drop is proved anew at each such place.
    fn drop(self) {
        let Token {
            name: _name,
            namespace: _namespace,
            revision: _revision,
        } = self;
    }
}

impl Token {
    ghost use Rattle.std.specs.Prelude.{◌≡◌, IfOk, IfErr, string_bytes};
    ghost use Rattle.spec_api.specs.Pages.{place_of};
    ghost use Rattle.spec_api.specs.PageTokens.{token_place, token_text, IsToken};
    ghost use Rattle.object_keys.specs.Keys.{key_of};
    ghost use Rattle.pages.specs.Seen.{token_of};
    ghost use Rattle.pages.specs.Refused.{RefusesToken};

    /// Returns the token that asks for what comes after an object, in the list of a revision. The error is running out of
    /// memory.
    pub fn after(member: &Member<'_>, revision: u64) -> Result<Token, AllocError>
        ensures place { IfOk result (λ t. token_place (token_of t) ≡ place_of (key_of member.now.key.now)) }
        ensures revision { IfOk result (λ t. t.revision ≡ revision) }
    {
        Ok(Token {
            name: member.key.name.clone()?,
            namespace: member.key.namespace.clone()?,
            revision,
        })
    }

    /// Returns the token's text. The error is running out of memory.
    pub fn write(&self, alloc: Global) -> Result<String, AllocError>
        ensures { IfOk result (λ s. string_bytes s ≡ token_text (token_of self.now)) }
    {
        let digits = self.revision.to_string(alloc)?;
        let name = Value::String(self.name.clone()?);
        let namespace = Value::String(self.namespace.clone()?);
        let mut members = Map::new(alloc);
        serde_json::put(&mut members, alloc, "name", name)?;
        serde_json::put(&mut members, alloc, "namespace", namespace)?;
        serde_json::put(&mut members, alloc, "rv", Value::String(digits))?;
        let text = Value::Object(members).to_string(alloc)?;
        URL_SAFE_NO_PAD.encode(alloc, text.as_bytes())
    }

    /// Returns the token that a text is: just what `write` gives is read, up to the greatest revision. The errors are the page
    /// token as the part of the request at fault, and running out of memory.
    pub fn read(alloc: Global, text: &str) -> Result<Token, Fault>
        ensures read { IfOk result (λ t. IsToken text.now (token_of t)) }
        ensures refused { IfErr result (RefusesToken text.now) }
    {
        let value = value_of(alloc, text)?;
        let token = match members_of(&value) {
            Some(members) => members.to_token(alloc)?,
            None => return Err(Fault::BadRequest(Part::Token)),
        };
        let again = token.write(alloc)?;
        if again.as_str() == text {
            Ok(token)
        } else {
            Err(Fault::BadRequest(Part::Token))
        }
    }
}
