//! Whether owner references are sound.
ghost use Rattle.std.specs.Prelude.{◌≡◌, codes, nat_le, option_map, option_and_then};
ghost use Rattle.std.specs.List.{list_all};
ghost use Rattle.serde_json.specs.Find.{as_array};
ghost use Rattle.serde_json.specs.View.{items_view};
ghost use Rattle.spec_api.specs.Checks.{is_not_empty, is_possible_uid, is_owner, controllers, are_owners_valid};
ghost use Rattle.spec_api.specs.Metadata.{metadata, owners_in};
ghost use Rattle.spec_api.specs.SelectorValues.{is_some_and};
ghost use Rattle.meta.specs.Owners.{owner_of};
ghost use Rattle.selector.specs.Seen.{now};

use crate::uids::is_of_the_future;
use meta::Object;
use meta::owners::{OwnerReference, owner};
use serde_json::Value;

/// Returns whether a text is there and not empty.
fn is_there(text: Option<&str>) -> bool
    ensures { result ≡ is_some_and is_not_empty (option_map now text.entry) }
{
    match text {
        Some(found) => 0 < found.len(),
        None => false,
    }
}

/// Returns whether a uid is there, and is not one of an object that is still to be created.
fn is_known(uid: Option<&str>, present: u64) -> bool
    ensures { result ≡ is_some_and (is_possible_uid present) (option_map now uid.entry) }
{
    match uid {
        Some(text) => 0 < text.len() && !is_of_the_future(text, present),
        None => false,
    }
}

fn is_owner(reference: OwnerReference<'_>, present: u64) -> bool
    ensures { result ≡ is_owner present (owner_of reference.entry) }
{
    if !is_there(reference.api_version) {
        return false;
    }
    if !is_there(reference.kind) {
        return false;
    }
    if !is_there(reference.name) {
        return false;
    }
    is_known(reference.uid, present)
}

fn all_are_owners(items: &Vec<Value>, present: u64) -> bool
    ensures { result ≡ list_all (is_owner present) (owners_in (items_view items.now.items)) }
{
    for item in items {
        if !is_owner(owner(item), present) {
            return false;
        }
    }
    true
}

fn has_one_controller_at_most(items: &Vec<Value>) -> bool
    ensures { result ≡ nat_le (controllers (owners_in (items_view items.now.items))) 1 }
{
    let mut is_found = false;
    for item in items {
        if owner(item).is_controller {
            if is_found {
                return false;
            }
            is_found = true;
        }
    }
    true
}

fn references(object: &Object) -> Option<&Vec<Value>>
    ensures { option_map (λ v. items_view v.now.items) result ≡ option_and_then as_array (metadata (codes "ownerReferences") object.now.value) }
{
    object.metadata_member("ownerReferences")?.as_array()
}

/// Returns whether the owner references are sound: each whole and none to a future uid, at most one of them a controller.
pub(crate) fn are_owners_valid(object: &Object, present: u64) -> bool
    ensures { result ≡ are_owners_valid present object.now.value }
{
    match references(object) {
        Some(items) => all_are_owners(items, present) && has_one_controller_at_most(items),
        None => true,
    }
}
