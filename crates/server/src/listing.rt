//! Lists, in pages, at the present revision and at earlier ones.
ghost use Rattle.std.specs.Prelude.{◌≡◌, IfOk, map, string_bytes};
ghost use Rattle.meta.specs.Members.{member_of};
ghost use Rattle.pages.specs.Seen.{asked_place};
ghost use Rattle.selector.specs.Views.{view_of};
ghost use Rattle.store.specs.Chunks.{after_key};
ghost use Rattle.server.specs.PageTexts.{first_page_text};
ghost use Rattle.server.specs.Pages.{ShowsPage};

use crate::next_pages::{next_token, told_count};
use crate::servers::Server;
use crate::shared_pages::SharedPage;
use meta::Member;
use object_keys::{Fault, Key};
use pages::{Token, page_text};
use reply::Reply;
use selector::View;
use spec_api::kinds::Kind;
use spec_api::versions::At;
use std::alloc::{AllocError, Global};

impl Server {
    ghost use Rattle.spec_server.specs.Servers.{list_served};
    ghost use Rattle.pages.specs.Seen.{asked_place};
    ghost use Rattle.selector.specs.Views.{view_of};
    ghost use Rattle.server.specs.Replies.{Lists};

    /// Returns a page of the list of a view: at most `limit` objects, or all if it is 0, after the place that a token names, or
    /// the first. The token is that of a page before it, so the list is to be one at its revision. The errors are a revision
    /// below the floor, one above the present, and running out of memory. A revision that is refused takes no memory.
    pub fn list(
        &self,
        alloc: Global,
        view: &View,
        at: At,
        limit: usize,
        after: Option<&Token>,
    ) -> Result<Reply, Fault>
        ensures { Lists (list_served self.now (view_of view.now)
            (record { at = at; limit = limit; after = asked_place after.entry })) result }
    {
        let page = self.page(alloc, view, at, limit, after)?;
        let text = page.text(alloc)?;
        Ok(Reply { code: 200, text })
    }
}

/// Returns a key of the place that a token names, if there is one. The error is running out of memory.
pub(crate) fn key_after(kind: Kind, after: Option<&Token>) -> Result<Option<Key>, AllocError>
    ensures { IfOk result (λ key. after_key key ≡ asked_place after.entry) }
{
    let Some(token) = after else {
        return Ok(None);
    };
    Ok(Some(Key {
        kind,
        namespace: token.namespace.clone()?,
        name: token.name.clone()?,
    }))
}

/// Returns the whole text of a page. The error is running out of memory.
pub(crate) fn whole_text(alloc: Global, page: &SharedPage) -> Result<String, AllocError>
    ensures { IfOk result (λ t. string_bytes t ≡ first_page_text page.now.revision page.now.limit page.now.objects) }
{
    let chunk = page.objects.page(alloc, page.limit)?;
    let reply = page_reply(
        alloc,
        page.objects.view(),
        page.revision,
        chunk.members.as_slice(),
        chunk.remaining,
    )?;
    Ok(reply.text)
}

/// Returns the reply with these objects of a list at a revision, after which so many remain. The error is running out of
/// memory.
fn page_reply(
    alloc: Global,
    view: &View,
    revision: u64,
    items: &[Member<'_>],
    remaining: usize,
) -> Result<Reply, AllocError>
    ensures { IfOk result (ShowsPage revision (view_of view.now) (map member_of items.now) remaining) }
{
    let next = next_token(items, remaining, revision)?;
    let count = told_count(view, remaining);
    let text = page_text(alloc, view.kind, revision, items, next.as_ref(), count)?;
    Ok(Reply { code: 200, text })
}
