//! Objects that are put and removed, with their links.
ghost use Rattle.std.specs.Prelude.{◌≡◌, IfOk, OnOk, OnErr, None, map};
ghost use Rattle.object_keys.specs.Keys.{key_of};
ghost use Rattle.spec_api.specs.History.{found, put_or_remove};
ghost use Rattle.spec_api.specs.Keys.{key_cmp};
ghost use Rattle.spec_client_go.specs.Shifts.{overlaid};
ghost use Rattle.std.specs.BTreeMap.{insert_entry};
ghost use Rattle.std.specs.Map.{keys_of};
ghost use Rattle.indexer.specs.Links.{link_of, links_at, IsIndexOf};
ghost use Rattle.reflector.specs.Seen.{members_seen};

use crate::links::{OwnerLink, links_of, relink, relinked};
use object_keys::Key;
use reflector::SharedObject;
use shared_map::SharedMap;
use std::alloc::{AllocError, Global};

/// Returns the links of the object under a key, if there is one.
fn links_under(
    alloc: Global,
    objects: &SharedMap<Key, SharedObject>,
    key: &Key,
) -> Result<Vec<OwnerLink>, AllocError>
    ensures { IfOk result (λ v. map link_of v.items ≡ links_at (key_of key.now) (found (key_of key.now) (members_seen objects.now))) }
{
    match objects.get(key) {
        Some(object) => links_of(alloc, key, object.object()),
        None => Ok(Vec::new(alloc)),
    }
}

/// Puts an object, which is then shared, under a key. The error is running out of memory, and changes nothing.
fn put_object(
    objects: &mut SharedMap<Key, SharedObject>,
    key: Key,
    object: &SharedObject,
) -> Result<(), AllocError>
    ensures ok { OnOk result (members_seen objects.new
        ≡ insert_entry key_cmp (members_seen objects.old) (key_of key) object.now.value) }
    ensures err { OnErr result (objects.new ≡ objects.old) }
{
    objects.insert(key, object.try_copy()?)?;
    Ok(())
}

/// Puts an object under a key, for a map that is only made. The error is running out of memory, after which the links may be of
/// other objects than those that are there.
pub fn put_made(
    alloc: Global,
    objects: &mut SharedMap<Key, SharedObject>,
    links: &mut SharedMap<OwnerLink, ()>,
    key: Key,
    object: &SharedObject,
) -> Result<(), AllocError>
    requires indexed { IsIndexOf (keys_of links.old) (members_seen objects.old) }
    ensures members { OnOk result (members_seen objects.new
        ≡ insert_entry key_cmp (members_seen objects.old) (key_of key) object.now.value) }
    ensures indexed { OnOk result (IsIndexOf (keys_of links.new) (members_seen objects.new)) }
{
    let more = links_of(alloc, &key, object.object())?;
    let gone = links_under(alloc, objects, &key)?;
    relink(links, gone.as_slice(), more)?;
    put_object(objects, key, object)?;
    Ok(())
}

/// Puts an object under a key. Where its owners stay the same, so do the links. The error is running out of memory, and changes
/// nothing.
pub fn put_under(
    alloc: Global,
    objects: &mut SharedMap<Key, SharedObject>,
    links: &mut SharedMap<OwnerLink, ()>,
    key: Key,
    object: &SharedObject,
) -> Result<(), AllocError>
    requires indexed { IsIndexOf (keys_of links.old) (members_seen objects.old) }
    ensures members { OnOk result (members_seen objects.new
        ≡ insert_entry key_cmp (members_seen objects.old) (key_of key) object.now.value) }
    ensures indexed { IsIndexOf (keys_of links.new) (members_seen objects.new) }
    ensures err { OnErr result (objects.new ≡ objects.old) }
{
    let more = links_of(alloc, &key, object.object())?;
    let gone = links_under(alloc, objects, &key)?;
    if more.as_slice() == gone.as_slice() {
        put_object(objects, key, object)?;
        return Ok(());
    }
    let changed = relinked(links, gone.as_slice(), more)?;
    put_object(objects, key, object)?;
    *links = changed;
    Ok(())
}

/// Removes the object under a key, if there is one. The error is running out of memory, and changes nothing.
pub fn remove_under(
    alloc: Global,
    objects: &mut SharedMap<Key, SharedObject>,
    links: &mut SharedMap<OwnerLink, ()>,
    key: &Key,
) -> Result<(), AllocError>
    requires indexed { IsIndexOf (keys_of links.old) (members_seen objects.old) }
    ensures members { OnOk result (members_seen objects.new
        ≡ put_or_remove (members_seen objects.old) (key_of key.now) None) }
    ensures indexed { IsIndexOf (keys_of links.new) (members_seen objects.new) }
    ensures err { OnErr result (objects.new ≡ objects.old) }
{
    let gone = links_under(alloc, objects, key)?;
    if gone.is_empty() {
        objects.remove(key)?;
        return Ok(());
    }
    let changed = relinked(links, gone.as_slice(), Vec::new(alloc))?;
    objects.remove(key)?;
    *links = changed;
    Ok(())
}

/// Puts the objects of a map into another. The error is running out of memory, after which some may be there.
pub fn lay_over(
    alloc: Global,
    made: &mut SharedMap<Key, SharedObject>,
    over: &SharedMap<Key, SharedObject>,
) -> Result<(), AllocError>
    ensures { OnOk result (members_seen made.new
        ≡ overlaid (members_seen made.old) (members_seen over.now)) }
{
    for entry in over.all(alloc)? {
        made.insert(entry.0.try_copy()?, entry.1.try_copy()?)?;
    }
    Ok(())
}
