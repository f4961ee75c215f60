//! The pieces of a page's text: what comes before its items, these, and what comes after them.
ghost use Rattle.std.specs.Prelude.{◌≡◌, ◌++◌, false, flat_map, codes, IfOk, OnOk, IfSome, string_bytes};
ghost use Rattle.json.specs.Print.{quoted};
ghost use Rattle.serde_json.specs.Data.{object as data_object};
ghost use Rattle.serde_json.specs.View.{view};
ghost use Rattle.serde_json.specs.Written as json;
ghost use Rattle.spec_api.specs.Kinds.{kind_text};
ghost use Rattle.spec_api.specs.Lists.{page_metadata};
ghost use Rattle.spec_api.specs.Verbs.{as_item};
ghost use Rattle.pages.specs.PageTexts.{opening_text, closing_text};
ghost use Rattle.pages.specs.Seen.{asked_place};

use crate::tokens::Token;
use meta::StoredObject;
use serde_json::{Value, json};
use spec_api::kinds::Kind;
use std::alloc::{AllocError, Global};

/// Returns what comes before the items of a list of a kind. The error is running out of memory.
pub fn opening_text(alloc: Global, kind: Kind) -> Result<String, AllocError>
    ensures { IfOk result (λ t. string_bytes t ≡ opening_text kind) }
{
    let version = quoted(alloc, kind.api_version())?;
    let mut text = String::new(alloc);
    push_all(
        &mut text,
        &["{\"apiVersion\":", version.as_str(), ",\"items\":["],
    )?;
    Ok(text)
}

/// Adds an object as an item of a list, after others or as the first. The error is running out of memory.
pub fn push_item(later: bool, object: &StoredObject, text: &mut String) -> Result<(), AllocError>
    ensures { OnOk result (string_bytes text.new ≡ string_bytes text.old
        ++ (json.comma_if later ++ json.compact_text (as_item object.now.value))) }
{
    if later {
        text.push(',')?;
    }
    text.push_str(object.item_text())
}

/// Returns what comes after the items of a page of a list at a revision. Where more follows, `next` asks for it, and `remaining`
/// says how many objects that is, if it is to be told. The error is running out of memory.
pub fn closing_text(
    alloc: Global,
    kind: Kind,
    revision: u64,
    next: Option<&Token>,
    remaining: Option<usize>,
) -> Result<String, AllocError>
    requires { IfSome next (λ t. t.now.revision ≡ revision) }
    ensures { IfOk result (λ t. string_bytes t
        ≡ closing_text kind (data_object (page_metadata revision remaining (asked_place next.entry)))) }
{
    let name = list_name(alloc, kind)?;
    let metadata = metadata(alloc, revision, next, remaining)?.to_string(alloc)?;
    let mut text = String::new(alloc);
    push_all(
        &mut text,
        &[
            "],\"kind\":",
            name.as_str(),
            ",\"metadata\":",
            metadata.as_str(),
            "}",
        ],
    )?;
    Ok(text)
}

/// Returns the metadata of a page.
fn metadata(
    alloc: Global,
    revision: u64,
    next: Option<&Token>,
    remaining: Option<usize>,
) -> Result<Value, AllocError>
    requires { IfSome next (λ t. t.now.revision ≡ revision) }
    ensures value { IfOk result (λ v. view v ≡ data_object (page_metadata revision remaining (asked_place next.entry))) }
    ensures no_float { IfOk result (λ v. json.has_float (view v) ≡ false) }
{
    let version = revision.to_string(alloc)?;
    let Some(token) = next else {
        return json!(in alloc; {"resourceVersion": version.as_str()});
    };
    let token = token.write(alloc)?;
    match remaining {
        None => {
            json!(in alloc; {"continue": token.as_str(), "resourceVersion": version.as_str()})
        }
        Some(count) => json!(in alloc; {
            "continue": token.as_str(),
            "remainingItemCount": count,
            "resourceVersion": version.as_str(),
        }),
    }
}

/// Adds texts, one after another.
fn push_all(text: &mut String, pieces: &[&str]) -> Result<(), AllocError>
    ensures { OnOk result (string_bytes text.new
        ≡ string_bytes text.old ++ flat_map (λ piece. piece.now) pieces.entry.now) }
{
    for piece in pieces {
        text.push_str(piece)?;
    }
    Ok(())
}

/// Returns a text as JSON.
fn quoted(alloc: Global, text: &str) -> Result<String, AllocError>
    ensures { IfOk result (λ t. string_bytes t ≡ quoted text.now) }
{
    Value::try_from_str(alloc, text)?.to_string(alloc)
}

/// Returns the member `kind` of a list of a kind, as JSON.
fn list_name(alloc: Global, kind: Kind) -> Result<String, AllocError>
    ensures { IfOk result (λ t. string_bytes t ≡ quoted (kind_text kind ++ codes "List")) }
{
    let name = format!(in alloc; "{}List", kind.name())?;
    quoted(alloc, name.as_str())
}
