//! What a page is, but for its objects: how many they are, how long, and what comes after them.
ghost use Rattle.std.specs.Prelude.{◌≡◌, ◌+◌, ◌++◌, IfOk, false, length, map};
ghost use Rattle.serde_json.specs.Written as json;
ghost use Rattle.spec_api.specs.Verbs.{as_item};
ghost use Rattle.pages.specs.PageTexts.{item_texts};
ghost use Rattle.server.specs.PageTexts.{IsEndOf};

use crate::next_pages::{next_token, told_count};
use crate::shared_pages::SharedPage;
use meta::{Member, StoredObject};
use pages::closing_text;
use std::alloc::{AllocError, Global};

/// How many items a page has, how long their texts are, and what comes after them.
#[derive(Drop)]
pub struct PageEnd {
    pub count: usize,
    pub items_len: usize,
    pub closing: String,
}

/// Returns how many items a page has, how long their texts are, and what comes after them. The error is running out of memory.
pub(crate) fn end_of(alloc: Global, page: &SharedPage) -> Result<PageEnd, AllocError>
    ensures { IfOk result (IsEndOf page.now) }
{
    let chunk = page.objects.page(alloc, page.limit)?;
    let members = chunk.members.as_slice();
    let next = next_token(members, chunk.remaining, page.revision)?;
    let view = page.objects.view();
    let told = told_count(view, chunk.remaining);
    Ok(PageEnd {
        count: members.len(),
        items_len: items_len(members)?,
        closing: closing_text(alloc, view.kind, page.revision, next.as_ref(), told)?,
    })
}

/// Returns how long the texts of objects are as the items of a list. The error is more than memory holds.
fn items_len(members: &[Member<'_>]) -> Result<usize, AllocError>
    ensures { IfOk result (λ n. n ≡ length (item_texts false (map (λ m. m.object.now.value) members.now))) }
{
    let mut len = 0;
    let mut later = false;
    for member in members {
        len = sum(len, item_len(later, member.object)?)?;
        later = true;
    }
    Ok(len)
}

/// Returns how long the text of an object is as an item of a list, after others or as the first.
fn item_len(later: bool, object: &StoredObject) -> Result<usize, AllocError>
    ensures { IfOk result (λ n. n ≡ length (json.comma_if later ++ json.compact_text (as_item object.now.value))) }
{
    let comma_len = if later { 1 } else { 0 };
    sum(comma_len, object.item_text().len())
}

/// Returns the sum of two lengths. More than can be counted is more than memory holds.
pub(crate) fn sum(one: usize, other: usize) -> Result<usize, AllocError>
    ensures { IfOk result (λ n. n ≡ one + other) }
{
    match one.checked_add(other) {
        Some(sum) => Ok(sum),
        None => Err(AllocError),
    }
}
