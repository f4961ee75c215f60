//! Objects that are found by a namespace or by an owner.
ghost use Rattle.std.specs.Prelude.{◌≡◌, ◌++◌, ◌∷◌, [], IfOk, OnOk, map, string_bytes};
ghost use Rattle.std.specs.Map.{keys_of};
ghost use Rattle.object_keys.specs.Keys.{key_of};
ghost use Rattle.spec_client_go.specs.Informers.{of_namespace, of_owner};
ghost use Rattle.reconcile_types.specs.Entries.{entry_of};
ghost use Rattle.indexer.specs.Links.{link_of, first_name, first_link, IsIndexOf};
ghost use Rattle.reflector.specs.Seen.{members_seen};
ghost use Rattle.indexer.specs.Seen.{of_kind};

use crate::links::OwnerLink;
use object_keys::Key;
use reconcile_types::Entry;
use reflector::SharedObject;
use shared_map::SharedMap;
use spec_api::kinds::Kind;
use std::alloc::{AllocError, Global};

/// Returns the first key of a kind in a namespace.
fn first_key(alloc: Global, kind: Kind, namespace: String) -> Key
    ensures { key_of result ≡ first_name kind (string_bytes namespace) }
{
    Key {
        kind,
        namespace,
        name: String::new(alloc),
    }
}

/// Returns the first link to a uid.
fn first_link(alloc: Global, uid: String) -> OwnerLink
    ensures { link_of result ≡ first_link (string_bytes uid) }
{
    OwnerLink {
        uid,
        key: first_key(alloc, Kind::ConfigMap, String::new(alloc)),
    }
}

/// Returns the first text after a text in byte order.
fn text_after(alloc: Global, text: &str) -> Result<String, AllocError>
    ensures { IfOk result (λ t. string_bytes t ≡ text.now ++ 0 ∷ []) }
{
    let mut after = String::from_str(alloc, text)?;
    after.push_str("\0")?;
    Ok(after)
}

/// Returns the objects with an owner of this uid, with their keys, in the order of keys. The error is running out of memory.
pub fn by_owner<'a>(
    alloc: Global,
    objects: &'a SharedMap<Key, SharedObject>,
    links: &'a SharedMap<OwnerLink, ()>,
    uid: &str,
) -> Result<Vec<Entry<'a>>, AllocError>
    requires indexed { IsIndexOf (keys_of links.now) (members_seen objects.now) }
    ensures { IfOk result (λ v. map entry_of v.items ≡ of_owner uid.entry.now (members_seen objects.entry.now)) }
{
    let first = first_link(alloc, String::from_str(alloc, uid)?);
    let past = first_link(alloc, text_after(alloc, uid)?);
    let mut found = Vec::new(alloc);
    if objects.len() == 0 {
        return Ok(found);
    }
    for link in links.between(alloc, &first, &past)? {
        if let Some(object) = objects.get(&link.0.key) {
            found.push(Entry {
                key: &link.0.key,
                object: object.object(),
            })?;
        }
    }
    Ok(found)
}

/// Appends entries. The error is running out of memory, after which some may be there.
fn append_entries<'a>(
    found: &mut Vec<Entry<'a>>,
    entries: Vec<&'a (Key, SharedObject)>,
) -> Result<(), AllocError>
    ensures { OnOk result (map entry_of found.new.items ≡ map entry_of found.old.items ++ members_seen (map (λ e. e.now) entries.entry.items)) }
{
    for entry in entries {
        found.push(Entry {
            key: &entry.0,
            object: entry.1.object(),
        })?;
    }
    Ok(())
}

/// Adds the objects of a kind in a namespace, with their keys. The error is running out of memory, after which some may be there.
fn add_of_kind<'a>(
    alloc: Global,
    found: &mut Vec<Entry<'a>>,
    objects: &'a SharedMap<Key, SharedObject>,
    kind: Kind,
    namespace: &str,
) -> Result<(), AllocError>
    ensures { OnOk result (map entry_of found.new.items
        ≡ map entry_of found.old.items ++ of_kind kind namespace.entry.now (members_seen objects.entry.now)) }
{
    let first = first_key(alloc, kind, String::from_str(alloc, namespace)?);
    let past = first_key(alloc, kind, text_after(alloc, namespace)?);
    append_entries(found, objects.between(alloc, &first, &past)?)
}

/// Returns the objects of a namespace with their keys, in the order of keys. It costs what it finds, and the way to the first of
/// each kind. The error is running out of memory.
pub fn by_namespace<'a>(
    alloc: Global,
    objects: &'a SharedMap<Key, SharedObject>,
    namespace: &str,
) -> Result<Vec<Entry<'a>>, AllocError>
    ensures { IfOk result (λ v. map entry_of v.items ≡ of_namespace namespace.entry.now (members_seen objects.entry.now)) }
{
    let mut found = Vec::new(alloc);
    if objects.len() == 0 {
        return Ok(found);
    }
    for kind in &Kind::ALL {
        add_of_kind(alloc, &mut found, objects, *kind, namespace)?;
    }
    Ok(found)
}
