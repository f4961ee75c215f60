//! What a controller watches.
ghost use Rattle.std.specs.Prelude.{◌≡◌, IfOk, OnOk, IfErr, All, option_map, string_bytes};
ghost use Rattle.controller_watches.specs.Watched.{IsScoped, RefusesWatches};

use crate::start_fault::StartFault;
use crate::views::{is_in_view, labels_of_text};
use meta::Object;
use object_keys::Key;
use request_encoding::{Scope, ScopeFault};
use selector::{Fields, View};
use spec_api::kinds::Kind;
use std::alloc::{AllocError, Global};

/// Objects that a controller follows: those of a kind, in a namespace or in all, and of these all or those with the labels that a selector asks for.
/// One with neither holds all objects of the kind. Of a kind that several watches name one list is followed, which holds all of them (`joint_watches`):
/// so more may be shown than is in one of them, and `holds` tells.
#[derive(Clone, Copy)]
pub struct Watch<'a> {
    pub kind: Kind,
    pub namespace: Option<&'a str>,
    pub selector: Option<&'a str>,
}

/// Returns a text of one's own, if one is given. The error is running out of memory.
fn owned(alloc: Global, text: Option<&str>) -> Result<Option<String>, AllocError>
    ensures { IfOk result (λ t. option_map string_bytes t ≡ option_map (λ s. s.now) text.entry) }
{
    match text {
        Some(text) => Ok(Some(String::from_str(alloc, text)?)),
        None => Ok(None),
    }
}

impl<'a> Watch<'a> {
    ghost use Rattle.std.specs.Prelude.{◌≡◌, None, Some, IfOk, IfErr};
    ghost use Rattle.spec_api.specs.History.{in_view};
    ghost use Rattle.object_keys.specs.Keys.{key_of};
    ghost use Rattle.request_encoding.specs.Given.{Refuses};
    ghost use Rattle.selector.specs.Views.{view_of};
    ghost use Rattle.controller_watches.specs.Watched.{scope_asked, view_asked};

    /// Returns all objects of a kind.
    pub fn all(kind: Kind) -> Watch<'a>
        ensures kind { result.kind ≡ kind }
        ensures all { result.namespace ≡ None }
        ensures any { result.selector ≡ None }
    {
        Watch {
            kind,
            namespace: None,
            selector: None,
        }
    }

    /// Returns the objects of a kind, in all namespaces, with the labels that a selector asks for.
    pub fn selected(kind: Kind, selector: &'a str) -> Watch<'a>
        ensures kind { result.kind ≡ kind }
        ensures all { result.namespace ≡ None }
        ensures selector { result.selector ≡ Some selector.entry }
    {
        Watch {
            kind,
            namespace: None,
            selector: Some(selector),
        }
    }

    /// Returns what it asks for, understood. The errors are a namespace or a selector that cannot be one, and running out of memory.
    pub fn view(&self, alloc: Global) -> Result<View, ScopeFault>
        ensures view { IfOk result (λ v. view_of v ≡ view_asked self.now) }
        ensures refused { IfErr result (Refuses (scope_asked self.now)) }
    {
        Scope::new(alloc, self.namespace, self.selector)?;
        Ok(View {
            kind: self.kind,
            namespace: owned(alloc, self.namespace)?,
            labels: labels_of_text(alloc, self.selector)?,
            fields: Fields::everything(alloc),
        })
    }

    /// Returns whether it holds an object under a key, as a reconcile may ask where a kind is watched more than once. It reads the selector each time:
    /// who asks often keeps the `view`, and asks `is_in_view`. The errors are those of `view`.
    pub fn holds(&self, alloc: Global, key: &Key, object: &Object) -> Result<bool, ScopeFault>
        ensures holds { IfOk result (λ b. b ≡ in_view (view_asked self.now) (key_of key.now) object.now.value) }
        ensures refused { IfErr result (Refuses (scope_asked self.now)) }
    {
        let view = self.view(alloc)?;
        Ok(is_in_view(&view, key, object))
    }
}

/// Checks what a controller is to watch, as `run_at` does before it asks for anything: who starts threads beside it checks before that. The errors
/// are a namespace or a selector that cannot be one (`Scope::new`), and running out of memory.
pub fn check_watches(alloc: Global, watches: &[Watch<'_>]) -> Result<(), StartFault>
    ensures scoped { OnOk result (All IsScoped watches.now) }
    ensures refused { IfErr result (RefusesWatches watches.now) }
{
    for watch in watches {
        Scope::new(alloc, watch.namespace, watch.selector)?;
    }
    Ok(())
}
