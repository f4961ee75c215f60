//! Merge patches.
ghost use Rattle.std.specs.Prelude.{◌≡◌, IfOk, OnOk, string_bytes};
ghost use Rattle.serde_json.specs.Data.{put};
ghost use Rattle.serde_json.specs.View.{view, members_view};
ghost use Rattle.spec_api.specs.Values.{merged, merged_members, found_or_null};

use crate::members::{into_members, remove, take};
use serde_json::{Map, Value};
use std::alloc::{AllocError, Global};

/// Returns the target after a merge patch (RFC 7396). The error is running out of memory.
#[cycle(merge)]
pub fn merge(alloc: Global, patch: Value, target: Value) -> Result<Value, AllocError>
    ensures { IfOk result (λ v. view v ≡ merged (view target) (view patch)) }
{
    match patch {
        Value::Object(changes) => {
            let members = into_members(alloc, target);
            Ok(Value::Object(merge_members(alloc, changes, members)?))
        }
        other => Ok(other),
    }
}

#[cycle(merge)]
fn merge_members(
    alloc: Global,
    changes: Map<String, Value>,
    members: Map<String, Value>,
) -> Result<Map<String, Value>, AllocError>
    ensures { IfOk result (λ m. members_view m.entries
        ≡ merged_members (members_view members.entries) (members_view changes.entries)) }
{
    let mut members = members;
    for (name, change) in changes {
        if change.is_null() {
            remove(&mut members, name.as_str());
        } else {
            merge_member(alloc, change, &mut members, name)?;
        }
    }
    Ok(members)
}

/// Puts at `name` what a change makes of the member that is there, or of none.
#[cycle(merge)]
fn merge_member(
    alloc: Global,
    change: Value,
    members: &mut Map<String, Value>,
    name: String,
) -> Result<(), AllocError>
    ensures { OnOk result (members_view members.new.entries ≡ put (string_bytes name)
        (merged (found_or_null (string_bytes name) (members_view members.old.entries)) (view change))
        (members_view members.old.entries)) }
{
    let existing = take(alloc, members, name.as_str())?;
    let inner = merge(alloc, change, existing)?;
    drop(members.insert(name, inner)?);
    Ok(())
}
