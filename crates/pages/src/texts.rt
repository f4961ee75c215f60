//! The whole texts of lists and of their pages.
ghost use Rattle.std.specs.Prelude.{◌≡◌, ◌++◌, false, map, IfOk, OnOk, IfSome, string_bytes};
ghost use Rattle.serde_json.specs.Written as json;
ghost use Rattle.spec_api.specs.Lists.{page_body};
ghost use Rattle.pages.specs.PageTexts.{item_texts};
ghost use Rattle.meta.specs.Members.{member_of};
ghost use Rattle.pages.specs.Seen.{asked_place};

use crate::pieces::{closing_text, opening_text, push_item};
use crate::tokens::Token;
use meta::Member;
use spec_api::kinds::Kind;
use std::alloc::{AllocError, Global};

/// About how much longer a page is than the texts of its items, but for what parts these.
const PAGE_LEN: usize = 256;

/// Returns the text of a page of a list at a revision. Where more follows, `next` asks for it, and `remaining` says how many
/// objects that is, if it is to be told. The error is running out of memory.
pub fn page_text(
    alloc: Global,
    kind: Kind,
    revision: u64,
    members: &[Member<'_>],
    next: Option<&Token>,
    remaining: Option<usize>,
) -> Result<String, AllocError>
    requires { IfSome next (λ t. t.now.revision ≡ revision) }
    ensures { IfOk result (λ t. string_bytes t ≡ json.compact_text
        (page_body kind revision remaining (record { items = map member_of members.entry.now; next = asked_place next.entry }))) }
{
    let opening = opening_text(alloc, kind)?;
    let closing = closing_text(alloc, kind, revision, next, remaining)?;
    let mut text = String::with_capacity(alloc, likely_len(members))?;
    text.push_str(opening.as_str())?;
    push_items(members, &mut text)?;
    text.push_str(closing.as_str())?;
    Ok(text)
}

/// Returns about how long the text of a page of these objects is. The text grows if it is longer.
fn likely_len(members: &[Member<'_>]) -> usize {
    let mut len = PAGE_LEN;
    for member in members {
        len = len
            .saturating_add(member.object.item_text().len())
            .saturating_add(1);
    }
    len
}

/// Adds the texts of objects as the items of a list.
fn push_items(members: &[Member<'_>], text: &mut String) -> Result<(), AllocError>
    ensures { OnOk result (string_bytes text.new ≡ string_bytes text.old
        ++ item_texts false (map (λ m. m.object.now.value) members.entry.now)) }
{
    let mut later = false;
    for member in members {
        push_item(later, member.object, text)?;
        later = true;
    }
    Ok(())
}
