//! How events are made: what a view shows, and the event from what it showed to what it shows.
ghost use Rattle.std.specs.Prelude.{◌≡◌, ◌++◌, IfOk, OnOk, map, option_map};
ghost use Rattle.spec_api.specs.History.{seen as shown};
ghost use Rattle.spec_api.specs.Events.{event_of, gone_at};
ghost use Rattle.object_keys.specs.Keys.{key_of};
ghost use Rattle.selector.specs.Views.{view_of};
ghost use Rattle.revisions.specs.Events.{event_seen};

use meta::Event;
use meta::objects::Object;
use meta::stored::StoredObject;
use metadata_editor::Draft;
use object_keys::Key;
use selector::View;
use spec_api::frames::ChangeKind;
use std::alloc::{AllocError, Global};

/// Returns the object, if the view asks for it. It takes no memory.
pub fn shown<'a>(
    view: &View,
    key: &Key,
    object: Option<&'a StoredObject>,
) -> Option<&'a StoredObject>
    ensures { option_map (λ o. o.now.value) result
        ≡ shown (view_of view.now) (key_of key.now) (option_map (λ o. o.now.value) object.entry) }
{
    match object {
        Some(object) => {
            if view.contains(key, object) {
                Some(object)
            } else {
                None
            }
        }
        None => None,
    }
}

/// Adds the event, if there is one, from what was shown under a key to what is shown there. The error is running out of
/// memory.
pub fn push_change(
    alloc: Global,
    changes: &mut Vec<Event>,
    revision: u64,
    key: &Key,
    old: Option<&StoredObject>,
    new: Option<&StoredObject>,
) -> Result<(), AllocError>
    ensures { OnOk result (map event_seen changes.new.items ≡ map event_seen changes.old.items
        ++ event_of revision (key_of key.now) (option_map (λ o. o.now.value) old.entry) (option_map (λ o. o.now.value) new.entry)) }
{
    let (kind, object) = match (old, new) {
        (None, None) => return Ok(()),
        (None, Some(new)) => (ChangeKind::Added, new.try_copy()?),
        (Some(_), Some(new)) => (ChangeKind::Modified, new.try_copy()?),
        (Some(old), None) => (ChangeKind::Deleted, gone_at(alloc, revision, old)?),
    };
    let key = key.try_copy()?;
    changes.push(Event {
        kind,
        revision,
        key,
        object,
    })?;
    Ok(())
}

/// Returns a copy of an object, at the revision of the write by which it is gone.
fn gone_at(alloc: Global, revision: u64, object: &StoredObject) -> Result<StoredObject, AllocError>
    ensures value { IfOk result (λ o. o.value ≡ gone_at revision object.now.value) }
    ensures kind { IfOk result (λ o. o.kind ≡ object.now.kind) }
{
    let gone = at_revision(alloc, revision, object.open(alloc)?)?;
    StoredObject::new(alloc, &gone)
}

/// Returns the object, at another revision.
fn at_revision(alloc: Global, revision: u64, object: Object) -> Result<Object, AllocError>
    ensures value { IfOk result (λ o. o.value ≡ gone_at revision object.value) }
    ensures kind { IfOk result (λ o. o.kind ≡ object.kind) }
{
    let digits = revision.to_string(alloc)?;
    let mut draft = Draft::new(alloc, object)?;
    draft.set_text(alloc, "resourceVersion", digits.as_str())?;
    let object = draft.close(alloc)?;
    Ok(object)
}
