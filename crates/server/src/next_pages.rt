//! What a page says of those after it.
ghost use Rattle.std.specs.Prelude.{◌≡◌, ◌==◌, None, IfOk, IfSome, map, option_map, if◌then◌else◌};
ghost use Rattle.spec_api.specs.PageTokens.{token_place};
ghost use Rattle.spec_api.specs.Pages.{last_place};
ghost use Rattle.meta.specs.Members.{member_of};
ghost use Rattle.pages.specs.Seen.{token_of};
ghost use Rattle.selector.specs.Views.{view_of};
ghost use Rattle.server.specs.PageTexts.{told};

use meta::Member;
use pages::Token;
use selector::View;
use std::alloc::AllocError;

/// Returns the token that asks for what comes after these objects of a list at a revision, if any remain. The error is running
/// out of memory.
pub fn next_token(
    items: &[Member<'_>],
    remaining: usize,
    revision: u64,
) -> Result<Option<Token>, AllocError>
    ensures place { IfOk result (λ next. option_map (λ t. token_place (token_of t)) next
        ≡ (if remaining == 0 then None else last_place (map member_of items.now))) }
    ensures revision { IfOk result (λ next. IfSome next (λ t. t.revision ≡ revision)) }
{
    if remaining == 0 {
        return Ok(None);
    }
    match items.last() {
        None => Ok(None),
        Some(member) => Ok(Some(Token::after(member, revision)?)),
    }
}

/// Returns how many objects follow a page, where that is told: a view that selects does not say it.
pub fn told_count(view: &View, remaining: usize) -> Option<usize>
    ensures { result ≡ told (view_of view.now) remaining }
{
    if view.is_selective() {
        None
    } else {
        Some(remaining)
    }
}
