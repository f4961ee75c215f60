//! The selectors of ReplicaSets and Deployments.
ghost use Rattle.std.specs.Prelude.{◌≡◌, IfOk, IfErr, List, Some, codes, length, nat_lt, string_bytes, option_map};
ghost use Rattle.spec_api.specs.Checks.{in_spec, is_selector_kept, requirements, text_or_empty};
ghost use Rattle.spec_api.specs.SelectorValues.{is_some_and};
ghost use Rattle.spec_api.specs.Selectors.{Requirement};
ghost use Rattle.object_keys.specs.declared.fault.Fault.TheVariants.{NoMemory};

use meta::Object;
use object_fields::in_spec;
use object_keys::Fault;
use selector::Selector;
use std::alloc::{AllocError, Global};

/// Returns the requirements of an object's selector, if it is there and is understood. The error is running out
/// of memory.
pub(crate) fn selector_of(alloc: Global, object: &Object) -> Result<Option<Selector>, Fault>
    ensures said { IfOk result (λ s. s ≡ requirements object.now.value) }
    ensures refused { IfErr result (λ e. e ≡ NoMemory) }
{
    match in_spec(object, "selector") {
        Some(value) => match Selector::of_value(alloc, value) {
            Ok(selector) => Ok(Some(selector)),
            Err(selector::SelectorFault::Malformed) => Ok(None),
            Err(selector::SelectorFault::Invalid) => Ok(None),
            Err(selector::SelectorFault::NoMemory) => Err(Fault::NoMemory),
        },
        None => Ok(None),
    }
}

/// Returns whether a selector is there and has a requirement.
pub(crate) fn says_something(selector: &Option<Selector>) -> bool
    ensures { result ≡ is_some_and (λ (rs : List Requirement). nat_lt 0 (length rs)) selector.now }
{
    match selector {
        Some(found) => !found.is_empty(),
        None => false,
    }
}

fn selector_text(alloc: Global, object: &Object) -> Result<String, AllocError>
    ensures { IfOk result (λ s. string_bytes s ≡ text_or_empty (in_spec (codes "selector") object.now.value)) }
{
    match in_spec(object, "selector") {
        Some(found) => found.to_string(alloc),
        None => Ok(String::new(alloc)),
    }
}

/// Returns whether the selector of an object is that of the stored one. The error is running out of memory.
pub(crate) fn is_selector_kept(
    alloc: Global,
    stored: &Object,
    object: &Object,
) -> Result<bool, AllocError>
    ensures { IfOk result (λ b. b ≡ is_selector_kept stored.now.value object.now.value) }
{
    let before = selector_text(alloc, stored)?;
    let after = selector_text(alloc, object)?;
    Ok(before.as_str() == after.as_str())
}
