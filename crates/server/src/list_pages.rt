//! Pages of lists, whose texts are still to be made.
use crate::list_texts::ListText;
use crate::listing::whole_text;
use crate::shared_pages::SharedPage;
use crate::undoing::undone;
use object_keys::Key;
use std::alloc::{AllocError, Global};
use std::marker::Model;
use store::PastSnapshot;
use watch_cache::Change;

/// A page of a list, whose text is still to be made. It is seen as that text.
#[derive(Drop)]
pub struct ListPage {
    /// What the view shows.
    pub(crate) objects: PastSnapshot,
    /// What was written after the list, and is to be undone.
    pub(crate) changes: Vec<Change>,
    /// The revision of the list.
    pub(crate) revision: u64,
    /// How many objects the page has at most; all, if it is 0.
    pub(crate) limit: usize,
    /// A key of the place after which the page begins.
    pub(crate) after: Option<Key>,
}

impl Model for ListPage {
    ghost use Rattle.std.specs.Prelude.{ℕ, List, map};
    ghost use Rattle.spec_server.specs.Recorded.{undone};
    ghost use Rattle.store.specs.Chunks.{after_key};
    ghost use Rattle.watch_cache.specs.Changes.{change_seen};
    ghost use Rattle.server.specs.Pages.{text_at};

    ghost Value = { List ℕ };

    ghost view = { λ p. text_at p.revision p.objects.view
        (undone p.objects.view p.objects.members (map change_seen p.changes.items)) p.limit (after_key p.after) };
}

impl ListPage {
    ghost use Rattle.std.specs.Prelude.{◌≡◌, IfOk, string_bytes};
    ghost use Rattle.server.specs.PageTexts.{first_page_text};

    /// Returns the objects of which its text is made. It costs what the changes do that are undone. The error is running out of memory.
    fn shared(self) -> Result<SharedPage, AllocError>
        ensures { IfOk result (λ p. first_page_text p.revision p.limit p.objects ≡ self) }
    {
        let ListPage {
            objects,
            changes,
            revision,
            limit,
            after,
        } = self;
        let objects = undone(objects, changes)?.after(after);
        Ok(SharedPage {
            objects,
            revision,
            limit,
        })
    }

    /// Returns its text, to be made piece by piece. It costs a look at each object of the page, a few for each change after the list, and to
    /// count what remains a look for each few objects. The error is running out of memory.
    pub fn open(self, alloc: Global) -> Result<ListText, AllocError>
        ensures { IfOk result (λ t. t ≡ self) }
    {
        let page = self.shared()?;
        ListText::of(alloc, page)
    }

    /// Returns its text, made whole. The error is running out of memory.
    pub(crate) fn text(self, alloc: Global) -> Result<String, AllocError>
        ensures { IfOk result (λ t. string_bytes t ≡ self) }
    {
        let page = self.shared()?;
        whole_text(alloc, &page)
    }
}
