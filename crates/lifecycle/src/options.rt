//! What a delete asks for beside its object.
ghost use Rattle.std.specs.Prelude.{◌≡◌, IfOk, codes, option_and_then, option_map, string_bytes};
ghost use Rattle.serde_json.specs.Find.{get};
ghost use Rattle.serde_json.specs.View.{view};
ghost use Rattle.spec_api.specs.DeleteOptions.{options_of, options_with, precondition, stated_policy};
ghost use Rattle.spec_api.specs.Metadata.{text_at};
ghost use Rattle.lifecycle.specs.Options.{ReadsOptions};

use meta::reading::{fits, is_body};
use object_keys::Fault;
use serde_json::Value;
use spec_api::policies::{Policy, StatedPolicy};
use spec_api::refusals::Part;
use spec_api::schemas::{Schema, Shape};
use std::alloc::{AllocError, Global};

/// What a delete asks for beside its object (Kubernetes API reference, DeleteOptions).
pub struct DeleteOptions {
    /// The uid that the object has to have.
    pub uid: Option<String>,
    /// The resourceVersion that the object has to have.
    pub version: Option<String>,
    /// What becomes of the object's dependents; with none, its finalizers stay as they are.
    pub policy: Option<Policy>,
}

impl Drop for DeleteOptions {
    // Called where one is dropped; a derived drop is proved anew at each such place.
    fn drop(self) {
        let DeleteOptions {
            uid: _uid,
            version: _version,
            policy: _policy,
        } = self;
    }
}

impl DeleteOptions {
    ghost use Rattle.std.specs.Prelude.{◌≡◌, None};
    ghost use Rattle.serde_json.specs.View.{view};
    ghost use Rattle.spec_api.specs.DeleteOptions.{options_of, options_with};
    ghost use Rattle.spec_api.specs.declared.refusals.Part.TheVariants as part;
    ghost use Rattle.lifecycle.specs.Options.{ReadsOptions};

    /// Reads the body of a delete. The errors are `Part::Body` for what is no body, `Part::Options` for a member of a wrong
    /// type, an unknown policy, `dryRun` and `orphanDependents`; and running out of memory.
    pub fn from_value(alloc: Global, value: &Value) -> Result<DeleteOptions, Fault>
        ensures { ReadsOptions (options_of (view value.now)) result }
    {
        if !is_body(value) {
            return Err(Fault::BadRequest(Part::Body));
        }
        if !fits(value, Shape::Object(Schema::DeleteOptions)) {
            return Err(Fault::BadRequest(Part::Options));
        }
        let uid = precondition(alloc, value, "uid")?;
        let version = precondition(alloc, value, "resourceVersion")?;
        with_policy(Part::Options, uid, version, policy_said(value))
    }

    /// Returns the options of a delete without a body, with the policy that its query names. The error is `Part::Query` for an
    /// unknown one.
    pub fn from_query(said: StatedPolicy) -> Result<DeleteOptions, Fault>
        ensures { ReadsOptions (options_with part.Query None None said) result }
    {
        with_policy(Part::Query, None, None, said)
    }
}

fn text_at<'v>(value: &'v Value, name: &str) -> Option<&'v str>
    ensures { option_map (λ s. s.now) result ≡ text_at name.now (view value.now) }
{
    value.get(name)?.as_str()
}

/// Returns a text that the object has to have. An empty one names nothing.
fn precondition(alloc: Global, value: &Value, name: &str) -> Result<Option<String>, AllocError>
    ensures { IfOk result (λ o. option_map string_bytes o ≡ precondition name.now (view value.now)) }
{
    let Some(preconditions) = value.get("preconditions") else {
        return Ok(None);
    };
    match text_at(preconditions, name) {
        Some(text) if !text.is_empty() => Ok(Some(String::from_str(alloc, text)?)),
        _ => Ok(None),
    }
}

fn policy_said(value: &Value) -> StatedPolicy
    ensures { result ≡ stated_policy (text_at (codes "propagationPolicy") (view value.now)) }
{
    StatedPolicy::read(text_at(value, "propagationPolicy"))
}

/// Returns the options with the policy that is named or, where that is unknown, the part of the request that names it.
fn with_policy(
    part: Part,
    uid: Option<String>,
    version: Option<String>,
    said: StatedPolicy,
) -> Result<DeleteOptions, Fault>
    ensures { ReadsOptions (options_with part (option_map string_bytes uid) (option_map string_bytes version) said) result }
{
    let policy = match said {
        StatedPolicy::Nothing => None,
        StatedPolicy::Named(policy) => Some(policy),
        StatedPolicy::Unknown => return Err(Fault::BadRequest(part)),
    };
    Ok(DeleteOptions {
        uid,
        version,
        policy,
    })
}
