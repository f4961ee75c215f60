//! What a write does to the objects that are there, in their order and in their index.
ghost use Rattle.std.specs.Prelude.{◌≡◌, ◌+◌, ◌≤◌, ◌&&◌, not, IfOk, OnOk, OnErr, Some, is_some, length, option_map, if◌then◌else◌};
ghost use Rattle.std.specs.BTreeMap.{insert_entry};
ghost use Rattle.spec_api.specs.History.{after, found};
ghost use Rattle.object_keys.specs.Keys.{key_of};
ghost use Rattle.meta.specs.Writes.{write_of};
ghost use Rattle.store.specs.Seen.{members_seen, IsIndexOf};

use meta::stored::StoredObject;
use meta::writes::Write;
use object_keys::Key;
use shared_map::SharedMap;
use std::alloc::AllocError;
use std::collections::HashMap;

/// Applies one write, and returns the object that was under its key. The error is running out of memory, and changes nothing.
pub fn take(
    objects: &mut SharedMap<Key, StoredObject>,
    index: &mut HashMap<Key, StoredObject>,
    write: Write,
) -> Result<Option<StoredObject>, AllocError>
    requires indexed { IsIndexOf index.old (members_seen objects.old) }
    ensures members { OnOk result (members_seen objects.new ≡ after (members_seen objects.old) (write_of write)) }
    ensures indexed { IsIndexOf index.new (members_seen objects.new) }
    ensures before { IfOk result (λ before. option_map (λ o. o.value) before
        ≡ found (key_of write.key) (members_seen objects.old)) }
    ensures len { IfOk result (λ before. length objects.new
        ≤ length objects.old + (if is_some write.put && not (is_some before) then 1 else 0)) }
    ensures err { OnErr result (objects.new ≡ objects.old) }
{
    let Write { key, put } = write;
    match put {
        Some(object) => put_under(objects, index, key, object),
        None => {
            objects.remove(&key)?;
            Ok(index.remove(&key))
        }
    }
}

/// Puts an object under a key. What the index needs is made first, so that it takes the object once the map has it.
fn put_under(
    objects: &mut SharedMap<Key, StoredObject>,
    index: &mut HashMap<Key, StoredObject>,
    key: Key,
    object: StoredObject,
) -> Result<Option<StoredObject>, AllocError>
    requires indexed { IsIndexOf index.old (members_seen objects.old) }
    ensures members { OnOk result (members_seen objects.new
        ≡ after (members_seen objects.old) (record { key = key_of key; put = Some object.value })) }
    ensures indexed { IsIndexOf index.new (members_seen objects.new) }
    ensures before { IfOk result (λ before. option_map (λ o. o.value) before
        ≡ found (key_of key) (members_seen objects.old)) }
    ensures len { IfOk result (λ before. length objects.new
        ≤ length objects.old + (if not (is_some before) then 1 else 0)) }
    ensures err { OnErr result (objects.new ≡ objects.old) }
{
    index.reserve(1)?;
    let copy = key.try_copy()?;
    let shared = object.try_copy()?;
    objects.insert(key, object)?;
    Ok(index.insert(copy, shared)?)
}
