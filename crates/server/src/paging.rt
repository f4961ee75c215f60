//! Pages of lists that are found, and whose texts are still to be made.
ghost use Rattle.spec_api.specs.Verbs.{Outcome};
ghost use Rattle.server.specs.Replies.{Finds};

use crate::list_pages::ListPage;
use crate::list_texts::ListText;
use crate::listing::key_after;
use crate::servers::Server;
use object_keys::Fault;
use pages::Token;
use selector::View;
use spec_api::versions::At;
use std::alloc::{AllocError, Global};
use watch_cache::Change;

impl Server {
    ghost use Rattle.std.specs.Prelude.{◌≡◌, IfOk, map};
    ghost use Rattle.spec_api.specs.History.{viewed};
    ghost use Rattle.spec_server.specs.Recorded.{undone};
    ghost use Rattle.spec_server.specs.Servers.{list_served};
    ghost use Rattle.spec_api.specs.declared.versions.At.TheVariants as at;
    ghost use Rattle.pages.specs.Seen.{asked_place};
    ghost use Rattle.selector.specs.Views.{view_of};
    ghost use Rattle.watch_cache.specs.Changes.{change_seen};
    ghost use Rattle.server.specs.Pages.{IsTextAt};
    ghost use Rattle.server.specs.Replies.{Finds};

    /// Returns a page of the list of a view, as `list` answers it, with its text still to be made: it shares the objects that are there, and
    /// has copies of the changes after the list, which are still to be undone, so that it costs little however many objects there are. The errors
    /// are those of `list`.
    pub fn page(
        &self,
        alloc: Global,
        view: &View,
        at: At,
        limit: usize,
        after: Option<&Token>,
    ) -> Result<ListPage, Fault>
        ensures { Finds (list_served self.now (view_of view.now)
            (record { at = at; limit = limit; after = asked_place after.entry })) result }
    {
        let present = self.revision();
        match at {
            At::NotOlder(asked) if present < asked => Err(Fault::TooNew { asked, present }),
            At::Present | At::NotOlder(_) => {
                Ok(self.page_before(alloc, view, Vec::new(alloc), present, limit, after)?)
            }
            At::Exact(revision) => self.page_exact(alloc, view, revision, limit, after),
        }
    }

    /// Returns a page of the list at a revision.
    pub(crate) fn page_exact(
        &self,
        alloc: Global,
        view: &View,
        revision: u64,
        limit: usize,
        after: Option<&Token>,
    ) -> Result<ListPage, Fault>
        ensures { Finds (list_served self.now (view_of view.now)
            (record { at = at.Exact revision; limit = limit; after = asked_place after.entry })) result }
    {
        let changes = self
            .cache(view.kind)
            .changes_since(alloc, self.revision(), revision)?;
        Ok(self.page_before(alloc, view, changes, revision, limit, after)?)
    }

    /// Returns a page of what a view showed before these changes, the last of all, as a list at a revision. The error is running out of memory.
    fn page_before(
        &self,
        alloc: Global,
        view: &View,
        changes: Vec<Change>,
        revision: u64,
        limit: usize,
        after: Option<&Token>,
    ) -> Result<ListPage, AllocError>
        ensures { IfOk result (IsTextAt revision (view_of view.now)
            (undone (view_of view.now) (viewed (view_of view.now) self.now.snapshot.members) (map change_seen changes.items))
            limit (asked_place after.entry)) }
    {
        let after = key_after(view.kind, after)?;
        let objects = self.store.past_snapshot(alloc, view)?;
        Ok(ListPage {
            objects,
            changes,
            revision,
            limit,
            after,
        })
    }
}

/// Returns the text of a page that was found, to be made piece by piece. Who shares a server does it after giving the server back. Out of memory
/// is an error as each refusal is.
pub fn opened(alloc: Global, page: Result<ListPage, Fault>) -> Result<ListText, Fault>
    ensures { (o : Outcome) → Finds o page → Finds o result }
{
    let page = match page {
        Ok(page) => page,
        Err(fault) => return Err(fault),
    };
    match page.open(alloc) {
        Ok(text) => Ok(text),
        Err(_) => Err(Fault::NoMemory),
    }
}
