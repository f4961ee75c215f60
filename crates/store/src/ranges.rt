//! Where the objects of a view lie in a map.
ghost use Rattle.std.specs.Prelude.{◌≡◌, [], false, IfOk, option_map, string_bytes};
ghost use Rattle.spec_api.specs.History.{viewed};
ghost use Rattle.spec_api.specs.Kinds.{kind_after};
ghost use Rattle.spec_api.specs.Lists.{is_selective};
ghost use Rattle.spec_api.specs.Pages.{place_of, after_place};
ghost use Rattle.object_keys.specs.Keys.{key_of};
ghost use Rattle.selector.specs.Views.{view_of};
ghost use Rattle.store.specs.AskedKeys.{first_name, first_asked, first_past, first_after, start_name, later};
ghost use Rattle.store.specs.Chunks.{after_key};
ghost use Rattle.store.specs.Seen.{members_seen};

use meta::stored::StoredObject;
use object_keys::Key;
use selector::View;
use shared_map::{EntriesLeft, SharedMap};
use spec_api::kinds::Kind;
use std::alloc::{AllocError, Global};

/// Returns the objects from the first key that a view may ask for to the last, or from the first after a key of the place of
/// `after`, in the order of keys. A view of a kind or a namespace that does not select asks for each of them. The error is
/// running out of memory.
pub fn asked<'a>(
    alloc: Global,
    objects: &'a SharedMap<Key, StoredObject>,
    view: &View,
    after: Option<Key>,
) -> Result<EntriesLeft<'a, Key, StoredObject>, AllocError>
    ensures found { IfOk result (λ range. viewed (view_of view.entry.now) (members_seen range)
        ≡ after_place (after_key after) (viewed (view_of view.entry.now) (members_seen objects.entry.now))) }
    ensures all { IfOk result (λ range. is_selective (view_of view.entry.now) ≡ false
        → viewed (view_of view.entry.now) (members_seen range) ≡ members_seen range) }
{
    let start = start_of(alloc, view, after)?;
    let past = first_past(alloc, view)?;
    Ok(objects.range(&start, past.as_ref()))
}

/// Returns the first key that a view may ask for after the place of a key, or at all where none is given.
fn start_of(alloc: Global, view: &View, after: Option<Key>) -> Result<Key, AllocError>
    ensures { IfOk result (λ key. key_of key ≡ start_name (view_of view.now) (after_key after)) }
{
    let first = first_asked(alloc, view)?;
    match after {
        None => Ok(first),
        Some(after) => Ok(later(first, first_after(view.kind, after)?)),
    }
}

/// Returns the first key of a kind after the place of a key, whatever the kind of that key.
fn first_after(kind: Kind, after: Key) -> Result<Key, AllocError>
    ensures { IfOk result (λ key. key_of key ≡ first_after kind (place_of (key_of after))) }
{
    let (namespace, mut name) = after.into_texts();
    name.push_str("\0")?;
    Ok(Key {
        kind,
        namespace,
        name,
    })
}

/// Returns the later of two keys.
fn later(first: Key, second: Key) -> Key
    ensures { key_of result ≡ later (key_of first) (key_of second) }
{
    if first < second { second } else { first }
}

/// Returns the first key that a view may ask for.
fn first_asked(alloc: Global, view: &View) -> Result<Key, AllocError>
    ensures { IfOk result (λ key. key_of key ≡ first_asked (view_of view.now)) }
{
    let namespace = match &view.namespace {
        None => String::new(alloc),
        Some(namespace) => namespace.clone()?,
    };
    Ok(first_key(alloc, view.kind, namespace))
}

/// Returns the first key after all that a view may ask for. There is none after the last kind.
fn first_past(alloc: Global, view: &View) -> Result<Option<Key>, AllocError>
    ensures { IfOk result (λ key. option_map key_of key
        ≡ first_past view.now.kind (option_map string_bytes view.now.namespace)) }
{
    match &view.namespace {
        None => Ok(first_of_next(alloc, view.kind)),
        Some(namespace) => {
            let mut past = namespace.clone()?;
            past.push_str("\0")?;
            Ok(Some(first_key(alloc, view.kind, past)))
        }
    }
}

/// Returns the first key of the next kind, if there is one.
fn first_of_next(alloc: Global, kind: Kind) -> Option<Key>
    ensures { option_map key_of result ≡ option_map (λ next. first_name next []) (kind_after kind) }
{
    let next = kind.next()?;
    Some(first_key(alloc, next, String::new(alloc)))
}

/// Returns the first key of a kind in a namespace.
fn first_key(alloc: Global, kind: Kind, namespace: String) -> Key
    ensures { key_of result ≡ first_name kind (string_bytes namespace) }
{
    Key {
        kind,
        namespace,
        name: String::new(alloc),
    }
}
