//! Who owns an object.
ghost use Rattle.std.specs.Prelude.{◌≡◌, IfOk, map, codes, option_map, option_and_then, unwrap_or, false};
ghost use Rattle.serde_json.specs.Data.{no_items};
ghost use Rattle.serde_json.specs.Find.{get, as_str, as_bool, as_array};
ghost use Rattle.serde_json.specs.View.{view, items_view};
ghost use Rattle.spec_api.specs.Metadata.{text_at, truth_at, owner, owners_in};
ghost use Rattle.meta.specs.Owners.{owner_of};

use serde_json::Value;
use std::alloc::{AllocError, Global};

/// An owner reference: its texts, where they are there, and its truth values, which are false where they are not.
#[derive(Clone, Copy, Drop)]
pub struct OwnerReference<'a> {
    pub api_version: Option<&'a str>,
    pub kind: Option<&'a str>,
    pub name: Option<&'a str>,
    pub uid: Option<&'a str>,
    pub is_controller: bool,
    pub blocks_deletion: bool,
}

fn text_at<'a>(value: &'a Value, name: &str) -> Option<&'a str>
    ensures { option_map (λ s. s.now) result ≡ text_at name.now (view value.now) }
{
    value.get(name)?.as_str()
}

fn truth_at(value: &Value, name: &str) -> bool
    ensures { result ≡ truth_at name.now (view value.now) }
{
    match value.get(name) {
        Some(found) => found.as_bool().unwrap_or(false),
        None => false,
    }
}

/// Returns the owner that a reference names.
pub fn owner(value: &Value) -> OwnerReference<'_>
    ensures { owner_of result ≡ owner (view value.now) }
{
    OwnerReference {
        api_version: text_at(value, "apiVersion"),
        kind: text_at(value, "kind"),
        name: text_at(value, "name"),
        uid: text_at(value, "uid"),
        is_controller: truth_at(value, "controller"),
        blocks_deletion: truth_at(value, "blockOwnerDeletion"),
    }
}

/// Returns the owners that references name, in their order.
pub fn owners_in(alloc: Global, items: &Vec<Value>) -> Result<Vec<OwnerReference<'_>>, AllocError>
    ensures { IfOk result (λ v. map owner_of v.items ≡ owners_in (items_view items.now.items)) }
{
    let mut found = Vec::with_capacity(alloc, items.len())?;
    for item in items {
        found.push(owner(item))?;
    }
    Ok(found)
}
