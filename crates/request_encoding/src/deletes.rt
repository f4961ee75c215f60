//! The body of a delete.
ghost use Rattle.std.specs.Prelude.{◌≡◌, IfOk, Some, string_bytes};
ghost use Rattle.serde_json.specs.Data.{object};
ghost use Rattle.serde_json.specs.Read.{read};
ghost use Rattle.serde_json.specs.View.{view};
ghost use Rattle.serde_json.specs.Written.{compact_text};
ghost use Rattle.lifecycle.specs.Options.{options_seen};
ghost use Rattle.request_encoding.specs.Deletes.{policy_text, preconditions, options_data};

use lifecycle::DeleteOptions;
use serde_json::{Value, json};
use spec_api::policies::Policy;
use std::alloc::{AllocError, Global};

/// Returns the name of a policy.
fn policy_text(policy: Policy) -> &'static str
    ensures { result.now ≡ policy_text policy }
{
    match policy {
        Policy::Orphan => "Orphan",
        Policy::Foreground => "Foreground",
        Policy::Background => "Background",
    }
}

/// Returns what the object has to be.
fn preconditions(alloc: Global, options: &DeleteOptions) -> Result<Value, AllocError>
    ensures { IfOk result (λ value. view value ≡ object (preconditions (options_seen options.now))) }
{
    match (&options.version, &options.uid) {
        (None, None) => json!(in alloc; {}),
        (None, Some(uid)) => json!(in alloc; {"uid": uid.as_str()}),
        (Some(version), None) => json!(in alloc; {"resourceVersion": version.as_str()}),
        (Some(version), Some(uid)) => {
            json!(in alloc; {"resourceVersion": version.as_str(), "uid": uid.as_str()})
        }
    }
}

/// Returns the options of a delete as JSON (Kubernetes API reference, DeleteOptions). The error is running out of memory.
pub fn options_value(alloc: Global, options: &DeleteOptions) -> Result<Value, AllocError>
    ensures { IfOk result (λ value. view value ≡ options_data (options_seen options.now)) }
{
    let preconditions = preconditions(alloc, options)?;
    match options.policy {
        None => json!(in alloc; {"preconditions": preconditions}),
        Some(policy) => {
            let name = policy_text(policy);
            json!(in alloc; {"preconditions": preconditions, "propagationPolicy": name})
        }
    }
}

/// Returns the body of a delete with these options. The error is running out of memory.
pub fn options_text(alloc: Global, options: &DeleteOptions) -> Result<String, AllocError>
    ensures text { IfOk result (λ text. string_bytes text ≡ compact_text (options_data (options_seen options.now))) }
    ensures back { IfOk result (λ text. read (string_bytes text) ≡ Some (options_data (options_seen options.now))) }
{
    options_value(alloc, options)?.to_string(alloc)
}
