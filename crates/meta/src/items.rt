//! The text of an object as an item of a list.
ghost use Rattle.std.specs.Prelude.{◌≡◌, ◌++◌, ◌||◌, codes, not, false, OnOk, IfOk, string_bytes};
ghost use Rattle.serde_json.specs.View.{view, members_view};
ghost use Rattle.serde_json.specs.Data.{object};
ghost use Rattle.serde_json.specs.Written.{has_float, compact_text, members_have_float};
ghost use Rattle.spec_api.specs.Values.{without};
ghost use Rattle.meta.specs.Items.{is_said_once, shown_text};

use serde_json::{Map, Value};
use std::alloc::{AllocError, Global};

/// Adds the text of an object with these members, but for what a list says once. The error is running out of memory.
pub(crate) fn push_item_text(
    alloc: Global,
    members: &Map<String, Value>,
    text: &mut String,
) -> Result<(), AllocError>
    requires { members_have_float (members_view members.now.entries) ≡ false }
    ensures { OnOk result (string_bytes text.new ≡ string_bytes text.old ++ compact_text (object
        (without (codes "kind") (without (codes "apiVersion") (members_view members.now.entries))))) }
{
    text.push_str("{")?;
    let mut later = false;
    for (key, member) in members.iter() {
        later = push_member_text(alloc, later, key.as_str(), member, text)?;
    }
    text.push_str("}")
}

/// Adds a member, after others or as the first, unless a list says it once. Returns whether there are members now.
fn push_member_text(
    alloc: Global,
    later: bool,
    name: &str,
    member: &Value,
    text: &mut String,
) -> Result<bool, AllocError>
    requires { has_float (view member.now) ≡ false }
    ensures text { OnOk result (string_bytes text.new
        ≡ string_bytes text.old ++ shown_text later name.now (view member.now)) }
    ensures later { IfOk result (λ more. more ≡ (later || not (is_said_once name.now))) }
{
    if is_said_once(name) {
        return Ok(later);
    }
    if later {
        text.push_str(",")?;
    }
    let quoted = Value::try_from_str(alloc, name)?.to_string(alloc)?;
    text.push_str(quoted.as_str())?;
    text.push_str(":")?;
    let shown = member.to_string(alloc)?;
    text.push_str(shown.as_str())?;
    Ok(true)
}

/// Returns whether a list says the member once for all its items.
fn is_said_once(name: &str) -> bool
    ensures { result ≡ is_said_once name.now }
{
    name == "apiVersion" || name == "kind"
}
