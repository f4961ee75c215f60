//! What a list or a watch asks for: a kind, one namespace or all, and selectors of labels and of fields.
ghost use Rattle.std.specs.Prelude.{◌≡◌, IfOk, option_map, string_bytes};
ghost use Rattle.spec_api.specs.History.{in_view};
ghost use Rattle.object_keys.specs.Keys.{key_of};

use crate::fields::Fields;
use crate::selectors::Selector;
use meta::stored::StoredObject;
use object_keys::Key;
use spec_api::kinds::Kind;
use std::alloc::{AllocError, Global};

/// What a list or a watch asks for (Kubernetes API Concepts, Resource URIs; Labels and Selectors; Field Selectors).
pub struct View {
    pub kind: Kind,
    /// The namespace that is asked for; with none, all are.
    pub namespace: Option<String>,
    /// What the objects' labels have to meet.
    pub labels: Selector,
    /// What the objects' fields have to meet.
    pub fields: Fields,
}

impl Drop for View {
    // Called where one is dropped; a derived drop is proved anew at each such place.
    fn drop(self) {
        let View {
            kind: _kind,
            namespace: _namespace,
            labels: _labels,
            fields: _fields,
        } = self;
    }
}

fn copied(text: Option<&String>) -> Result<Option<String>, AllocError>
    ensures { IfOk result (λ copy. option_map string_bytes copy ≡ option_map (λ t. string_bytes t.now) text.entry) }
{
    match text {
        None => Ok(None),
        Some(text) => Ok(Some(text.clone()?)),
    }
}

impl View {
    ghost use Rattle.std.specs.Prelude.{◌≡◌, ◌==◌, IfOk, option_map, string_bytes};
    ghost use Rattle.spec_api.specs.History.{in_view, in_namespace, unfiltered};
    ghost use Rattle.spec_api.specs.Lists.{is_selective};
    ghost use Rattle.selector.specs.Views.{view_of};

    /// Returns all objects of a kind, in one namespace or in all. It takes no memory.
    pub fn unfiltered(alloc: Global, kind: Kind, namespace: Option<String>) -> View
        ensures { view_of result ≡ unfiltered kind (option_map string_bytes namespace) }
    {
        View {
            kind,
            namespace,
            labels: Selector::everything(alloc),
            fields: Fields::everything(alloc),
        }
    }

    /// Returns a copy of the view. The error is running out of memory.
    pub fn try_copy(&self, alloc: Global) -> Result<View, AllocError>
        ensures { IfOk result (λ v. view_of v ≡ view_of self.now) }
    {
        Ok(View {
            kind: self.kind,
            namespace: copied(self.namespace.as_ref())?,
            labels: self.labels.try_copy(alloc)?,
            fields: self.fields.try_copy(alloc)?,
        })
    }

    /// Returns whether the view selects by labels or fields, and not by kind and namespace alone. It takes no memory.
    pub fn is_selective(&self) -> bool
        ensures { result ≡ is_selective (view_of self.now) }
    {
        !(self.labels.is_empty() && self.fields.is_empty())
    }

    /// Returns whether the view asks for a namespace.
    fn has_namespace(&self, namespace: &str) -> bool
        ensures { result ≡ in_namespace (option_map string_bytes self.now.namespace) namespace.now }
    {
        match &self.namespace {
            None => true,
            Some(wanted) => wanted.as_bytes() == namespace.as_bytes(),
        }
    }

    /// Returns whether the view asks for an object under a key. It takes no memory.
    pub fn contains(&self, key: &Key, object: &StoredObject) -> bool
        ensures { result ≡ in_view (view_of self.now) (key_of key.now) object.now.value }
    {
        self.kind == key.kind
            && self.has_namespace(key.namespace.as_str())
            && self.labels.selects(object)
            && self
                .fields
                .matches(key.name.as_str(), key.namespace.as_str())
    }
}
