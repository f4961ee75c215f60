//! The finalizers that a delete leaves.
ghost use Rattle.std.specs.Prelude.{◌≡◌, IfOk, OnOk, false};
ghost use Rattle.serde_json.specs.Data.{no_items};
ghost use Rattle.serde_json.specs.View.{view, items_view};
ghost use Rattle.serde_json.specs.Written.{items_have_float};
ghost use Rattle.spec_api.specs.Deletion.{is_of_policy, of_policy, others_then, are_of, leaves, left_by};
ghost use Rattle.lifecycle.specs.Finalizers.{followed};

use meta::finalizers::{has_text, is_text};
use serde_json::Value;
use spec_api::policies::Policy;
use std::alloc::{AllocError, Global};

const ORPHAN: &str = "orphan";

const FOREGROUND: &str = "foregroundDeletion";

/// Returns whether a finalizer is that of a policy.
fn is_of_policy(value: &Value) -> bool
    ensures { result ≡ is_of_policy (view value.now) }
{
    is_text(value, ORPHAN) || is_text(value, FOREGROUND)
}

/// Returns whether finalizers are those of this policy already.
fn are_of(policy: Policy, items: &[Value]) -> bool
    ensures { result ≡ are_of policy (items_view items.now) }
{
    let orphans = has_text(items, ORPHAN);
    let waits = has_text(items, FOREGROUND);
    match policy {
        Policy::Orphan => orphans && !waits,
        Policy::Foreground => waits && !orphans,
        Policy::Background => !orphans && !waits,
    }
}

/// Returns whether a delete leaves the finalizers as they are.
pub fn leaves(policy: Option<Policy>, items: &[Value]) -> bool
    ensures { result ≡ leaves policy (items_view items.now) }
{
    match policy {
        None => true,
        Some(policy) => are_of(policy, items),
    }
}

/// Returns the finalizers after a delete: if it names a policy, those of this policy replace those of any. The error is
/// running out of memory.
pub fn left_by(
    alloc: Global,
    policy: Option<Policy>,
    items: &[Value],
) -> Result<Vec<Value>, AllocError>
    requires no_float { items_have_float (items_view items.now) ≡ false }
    ensures items { IfOk result (λ v. items_view v.items ≡ left_by policy (items_view items.now)) }
    ensures no_float { IfOk result (λ v. items_have_float (items_view v.items) ≡ false) }
{
    match policy {
        None => copied(alloc, items),
        Some(policy) => {
            if are_of(policy, items) {
                copied(alloc, items)
            } else {
                others_then(alloc, policy, items)
            }
        }
    }
}

/// Returns a copy of finalizers.
fn copied(alloc: Global, items: &[Value]) -> Result<Vec<Value>, AllocError>
    ensures { IfOk result (λ v. items_view v.items ≡ items_view items.now) }
{
    let mut copies = Vec::with_capacity(alloc, items.len())?;
    for item in items {
        copies.push(item.clone()?)?;
    }
    Ok(copies)
}

/// Returns the finalizers that are of no policy, and that of this policy after them.
fn others_then(alloc: Global, policy: Policy, items: &[Value]) -> Result<Vec<Value>, AllocError>
    ensures { IfOk result (λ v. items_view v.items ≡ others_then (of_policy policy) (items_view items.now)) }
{
    let mut left = others(alloc, items)?;
    add_of_policy(alloc, policy, &mut left)?;
    Ok(left)
}

/// Returns the finalizers that are of no policy.
fn others(alloc: Global, items: &[Value]) -> Result<Vec<Value>, AllocError>
    ensures { IfOk result (λ v. items_view v.items ≡ others_then no_items (items_view items.now)) }
{
    let mut left = Vec::new(alloc);
    for item in items {
        if !is_of_policy(item) {
            left.push(item.clone()?)?;
        }
    }
    Ok(left)
}

/// Adds the finalizer of a policy that has one.
fn add_of_policy(alloc: Global, policy: Policy, left: &mut Vec<Value>) -> Result<(), AllocError>
    ensures { OnOk result (items_view left.new.items ≡ followed (items_view left.old.items) (of_policy policy)) }
{
    let name = match policy {
        Policy::Orphan => ORPHAN,
        Policy::Foreground => FOREGROUND,
        Policy::Background => return Ok(()),
    };
    left.push(Value::try_from_str(alloc, name)?)?;
    Ok(())
}
