//! The objects of which an object is the controller.
ghost use Rattle.std.specs.Prelude.{◌≡◌, ◌&&◌, IfOk, filter, map};
ghost use Rattle.std.specs.List.{list_any};
ghost use Rattle.std.specs.Str.{bytes_eq};
ghost use Rattle.serde_json.specs.View.{items_view};
ghost use Rattle.spec_api.specs.Metadata.{Owner, owners_in};
ghost use Rattle.spec_client_go.specs.OwnerReferences.{is_controlled_by, is_text};
ghost use Rattle.spec_reconcile.specs.Deployments.{managed, sets_of};
ghost use Rattle.object_keys.specs.Keys.{key_of};
ghost use Rattle.reconcile_types.specs.Entries.{entry_of};
ghost use Rattle.reconcile_types.specs.Hands.{members_of};

use crate::ages::sort_by_age;
use meta::Object;
use object_keys::Key;
use owner_references::controlled_by::is_controlled_by;
use reconcile_types::{Entry, Seen};
use std::alloc::{AllocError, Global};

/// Returns those of the objects that are of a namespace, and of which the object of this uid is the controller.
fn controlled<'a>(
    alloc: Global,
    namespace: &str,
    uid: &str,
    objects: &[Entry<'a>],
) -> Result<Vec<Entry<'a>>, AllocError>
    ensures { IfOk result (λ v. map entry_of v.items
        ≡ filter (λ m. bytes_eq m.0.namespace namespace.now && is_controlled_by uid.now m.1) (map entry_of objects.now)) }
{
    let mut found = Vec::new(alloc);
    for object in objects {
        if object.key.namespace.as_str() == namespace && is_controlled_by(uid, object.object) {
            found.push(*object)?;
        }
    }
    Ok(found)
}

/// Returns the objects of a namespace of which an object is the controller. The error is running out of memory.
#[tactic(auto, using(crate::proofs::Found::managed_here, crate::proofs::Found::nothing_managed))]
pub(crate) fn managed<'a, S: Seen>(
    alloc: Global,
    look: &'a Option<S>,
    namespace: &str,
    owner: &Object,
) -> Result<Vec<Entry<'a>>, AllocError>
    ensures { IfOk result (λ v. map entry_of v.items ≡ managed namespace.now owner.now.value (members_of S.snapshot look.now)) }
{
    let Some(uid) = owner.uid() else {
        return Ok(Vec::new(alloc));
    };
    let Some(look) = look else {
        return Ok(Vec::new(alloc));
    };
    let owned = look.by_owner(alloc, uid)?;
    controlled(alloc, namespace, uid, owned.as_slice())
}

/// Returns the sets of a Deployment, by age. The error is running out of memory.
pub(crate) fn sets_of<'a, S: Seen>(
    alloc: Global,
    look: &'a Option<S>,
    key: &Key,
    deployment: &Object,
) -> Result<Vec<Entry<'a>>, AllocError>
    ensures { IfOk result (λ v. map entry_of v.items
        ≡ sets_of (key_of key.now) deployment.now.value (members_of S.snapshot look.now)) }
{
    let mut sets = managed(alloc, look, key.namespace.as_str(), deployment)?;
    sort_by_age(&mut sets)?;
    Ok(sets)
}
