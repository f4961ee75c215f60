//! Whether there is such a scope.
ghost use Rattle.std.specs.Prelude.{◌≡◌, true, IfOk, IfErr, OnOk, is_some, option_map, string_bytes};
ghost use Rattle.std.specs.Option.{option_map_or};
ghost use Rattle.spec_api.specs.Keys.{is_namespace};
ghost use Rattle.spec_api.specs.Queries.{or_empty};
ghost use Rattle.spec_api.specs.SelectorTexts.{selector_of_text};
ghost use Rattle.request_encoding.specs.Given.{RefusesSelector};

use crate::faults::ScopeFault;
use metadata_values::is_namespace;
use selector::{Selector, SelectorFault};
use std::alloc::{AllocError, Global};

/// Returns whether a namespace, if one is given, can be called so.
pub(crate) fn is_callable(namespace: Option<&str>) -> bool
    ensures { result ≡ option_map_or is_namespace (option_map (λ t. t.now) namespace.entry) true }
{
    match namespace {
        Some(name) => is_namespace(name),
        None => true,
    }
}

/// Reads a selector's text, if one is given. The errors are a text that is no selector, and running out of memory.
pub(crate) fn check_selector(alloc: Global, selector: Option<&str>) -> Result<(), ScopeFault>
    ensures understood { OnOk result (is_some (selector_of_text (or_empty (option_map (λ t. t.now) selector.entry))) ≡ true) }
    ensures refused { IfErr result (RefusesSelector (selector_of_text (or_empty (option_map (λ t. t.now) selector.entry)))) }
{
    let Some(text) = selector else {
        return Ok(());
    };
    match Selector::parse(alloc, text) {
        Ok(_) => Ok(()),
        Err(SelectorFault::Malformed | SelectorFault::Invalid) => Err(ScopeFault::Selector),
        Err(SelectorFault::NoMemory) => Err(ScopeFault::NoMemory),
    }
}

/// Returns a text of one's own, if one is given. The error is running out of memory.
pub(crate) fn owned(alloc: Global, text: Option<&str>) -> Result<Option<String>, AllocError>
    ensures { IfOk result (λ t. option_map string_bytes t ≡ option_map (λ s. s.now) text.entry) }
{
    match text {
        Some(text) => Ok(Some(String::from_str(alloc, text)?)),
        None => Ok(None),
    }
}
