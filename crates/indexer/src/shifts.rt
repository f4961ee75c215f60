//! What a delta changes, object by object.
ghost use Rattle.std.specs.Prelude.{◌≡◌, IfOk, [], ◌∷◌, Some, map, option_map};
ghost use Rattle.spec_api.specs.History.{found};
ghost use Rattle.spec_client_go.specs.Reflectors.{name_in};
ghost use Rattle.object_keys.specs.Keys.{key_of};
ghost use Rattle.spec_client_go.specs.Shifts.{differ, shift_at, shifts_between, shift_to, removal, shifts_of};
ghost use Rattle.reflector.specs.Deltas.{delta_of};
ghost use Rattle.indexer.specs.Shifted.{shift_of};

use crate::objects::ObjectMap;
use meta::Object;
use object_keys::Key;
use reflector::identities::key_of;
use reflector::{Delta, SharedObject};
use std::alloc::{AllocError, Global};

/// A change of one object: what was under a key, and what is there now.
pub struct Shift {
    pub key: Key,
    pub old: Option<SharedObject>,
    pub new: Option<SharedObject>,
}

impl Drop for Shift {
    // Called where one is dropped; a derived drop is proved anew at each such place.
    fn drop(self) {
        let Shift {
            key: _key,
            old: _old,
            new: _new,
        } = self;
    }
}

/// Returns whether two objects have different texts.
fn texts_differ(alloc: Global, old: &Object, new: &Object) -> Result<bool, AllocError>
    ensures { IfOk result (λ b. b ≡ differ (Some old.now.value) (Some new.now.value)) }
{
    let before = old.text(alloc)?;
    let after = new.text(alloc)?;
    Ok(before.as_str() != after.as_str())
}

/// Returns whether what was there differs from what is there.
fn differ(
    alloc: Global,
    old: &Option<SharedObject>,
    new: &Option<SharedObject>,
) -> Result<bool, AllocError>
    ensures { IfOk result (λ b. b ≡ differ (option_map (λ o. o.value) old.now) (option_map (λ o. o.value) new.now)) }
{
    match (old, new) {
        (None, None) => Ok(false),
        (None, Some(_)) => Ok(true),
        (Some(_), None) => Ok(true),
        (Some(old), Some(new)) => texts_differ(alloc, old.object(), new.object()),
    }
}

/// Returns a copy of what is under a key.
fn find_in(objects: &ObjectMap, key: &Key) -> Result<Option<SharedObject>, AllocError>
    ensures { IfOk result (λ o. option_map (λ o. o.value) o ≡ found (key_of key.now) objects.now) }
{
    match objects.get(key) {
        Some(object) => Ok(Some(object.try_copy()?)),
        None => Ok(None),
    }
}

/// Returns what is under a key in two maps.
fn shift_at(old: &ObjectMap, new: &ObjectMap, key: &Key) -> Result<Shift, AllocError>
    ensures { IfOk result (λ s. shift_of s
        ≡ shift_at old.now new.now (key_of key.now)) }
{
    Ok(Shift {
        key: key.try_copy()?,
        old: find_in(old, key)?,
        new: find_in(new, key)?,
    })
}

/// Returns a shift for each key under which the objects of two maps differ, in the order of keys.
pub fn shifts_between(
    alloc: Global,
    old: &ObjectMap,
    new: &ObjectMap,
) -> Result<Vec<Shift>, AllocError>
    ensures { IfOk result (λ v. map shift_of v.items
        ≡ shifts_between old.now new.now) }
{
    let both = old.with_later(new)?;
    let mut shifts = Vec::new(alloc);
    for entry in both.all(alloc)? {
        let shift = shift_at(old, new, &entry.0)?;
        if differ(alloc, &shift.old, &shift.new)? {
            shifts.push(shift)?;
        }
    }
    Ok(shifts)
}

/// Returns the list of one shift.
fn just(alloc: Global, shift: Shift) -> Result<Vec<Shift>, AllocError>
    ensures { IfOk result (λ v. map shift_of v.items ≡ shift_of shift ∷ []) }
{
    let mut shifts = Vec::new(alloc);
    shifts.push(shift)?;
    Ok(shifts)
}

/// Returns what putting an object changes.
fn put_shift(alloc: Global, objects: &ObjectMap, object: &SharedObject) -> Result<Shift, AllocError>
    ensures { IfOk result (λ s. shift_of s
        ≡ shift_to objects.now (name_in object.now) (Some object.now.value)) }
{
    let key = key_of(alloc, object.object())?;
    let old = find_in(objects, &key)?;
    Ok(Shift {
        key,
        old,
        new: Some(object.try_copy()?),
    })
}

/// Returns what removing the object under a key changes.
fn removal(alloc: Global, objects: &ObjectMap, key: &Key) -> Result<Vec<Shift>, AllocError>
    ensures { IfOk result (λ v. map shift_of v.items
        ≡ removal (key_of key.now) (found (key_of key.now) objects.now)) }
{
    match find_in(objects, key)? {
        Some(old) => just(
            alloc,
            Shift {
                key: key.try_copy()?,
                old: Some(old),
                new: None,
            },
        ),
        None => Ok(Vec::new(alloc)),
    }
}

/// Returns what a delta changes of these objects. The error is running out of memory.
pub fn shifts_of(
    alloc: Global,
    objects: &ObjectMap,
    delta: &Delta,
) -> Result<Vec<Shift>, AllocError>
    ensures { IfOk result (λ v. map shift_of v.items ≡ shifts_of objects.now (delta_of delta.now)) }
{
    match delta {
        Delta::Replace(_, listed) => {
            let new = ObjectMap::of(alloc, listed.as_slice())?;
            shifts_between(alloc, objects, &new)
        }
        Delta::Put(object) => just(alloc, put_shift(alloc, objects, object)?),
        Delta::Remove(_, key) => removal(alloc, objects, key),
        Delta::Mark(_) => Ok(Vec::new(alloc)),
    }
}
