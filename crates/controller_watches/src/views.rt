//! What a watch asks for, understood.
ghost use Rattle.std.specs.Prelude.{◌≡◌, Some, IfOk, IfErr, option_map, string_bytes};
ghost use Rattle.spec_api.specs.History.{in_namespace, in_view};
ghost use Rattle.spec_api.specs.Queries.{or_empty};
ghost use Rattle.spec_api.specs.SelectorTexts.{selector_of_text};
ghost use Rattle.object_keys.specs.Keys.{key_of};
ghost use Rattle.request_encoding.specs.Given.{RefusesSelector};
ghost use Rattle.selector.specs.Views.{view_of};

use meta::Object;
use object_keys::Key;
use request_encoding::ScopeFault;
use selector::{Selector, SelectorFault, View};
use std::alloc::Global;

/// Returns what a selector's text asks of labels, if one is given. The errors are a text that is no selector, and running out of memory.
pub(crate) fn labels_of_text(alloc: Global, text: Option<&str>) -> Result<Selector, ScopeFault>
    ensures read { IfOk result (λ s. selector_of_text (or_empty (option_map (λ t. t.now) text.entry)) ≡ Some s) }
    ensures refused { IfErr result (RefusesSelector (selector_of_text (or_empty (option_map (λ t. t.now) text.entry)))) }
{
    let Some(text) = text else {
        return Ok(Selector::everything(alloc));
    };
    match Selector::parse(alloc, text) {
        Ok(labels) => Ok(labels),
        Err(SelectorFault::Malformed | SelectorFault::Invalid) => Err(ScopeFault::Selector),
        Err(SelectorFault::NoMemory) => Err(ScopeFault::NoMemory),
    }
}

/// Returns whether a view asks for a namespace.
fn has_namespace(view: &View, namespace: &str) -> bool
    ensures { result ≡ in_namespace (option_map string_bytes view.now.namespace) namespace.now }
{
    match &view.namespace {
        None => true,
        Some(wanted) => wanted.as_bytes() == namespace.as_bytes(),
    }
}

/// Returns whether a view asks for an object under a key, by its kind, its namespace and its labels: the server lists it then. It takes no memory.
pub fn is_in_view(view: &View, key: &Key, object: &Object) -> bool
    ensures { result ≡ in_view (view_of view.now) (key_of key.now) object.now.value }
{
    view.kind == key.kind
        && has_namespace(view, key.namespace.as_str())
        && view.labels.matches(object.metadata_member("labels"))
        && view
            .fields
            .matches(key.name.as_str(), key.namespace.as_str())
}
