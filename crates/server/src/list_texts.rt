//! Texts of lists, made piece by piece.
use crate::ends::{end_of, sum};
use crate::items::push_some;
use crate::shared_pages::SharedPage;
use pages::opening_text;
use spec_api::kinds::Kind;
use std::alloc::{AllocError, Global};
use std::marker::Model;
use store::ViewSnapshot;

/// The text of a page of a list, of which a beginning may be made already. It has the objects until the last of their items is made.
pub struct ListText {
    kind: Kind,
    /// What comes before the items.
    before: String,
    /// The objects whose items are still to be made, and those after the page.
    objects: ViewSnapshot,
    /// How many items these are.
    left: usize,
    /// Whether an item comes before them.
    later: bool,
    /// What comes after the items.
    closing: String,
    /// How long all of this is.
    len: usize,
}

impl Drop for ListText {
    // Called where one is dropped; a derived drop is proved anew at each such place.
    fn drop(self) {
        let ListText {
            kind: _kind,
            before: _before,
            objects: _objects,
            left: _left,
            later: _later,
            closing: _closing,
            len: _len,
        } = self;
    }
}

impl Model for ListText {
    ghost use Rattle.std.specs.Prelude.{◌≡◌, ℕ, List, length, string_bytes};
    ghost use Rattle.server.specs.ListTexts.{text_left};

    ghost Value = { List ℕ };

    ghost view = { λ t. text_left (string_bytes t.before) t.later t.left t.objects (string_bytes t.closing) };

    ghost invariant = { λ t. t.len ≡ length (text_left (string_bytes t.before) t.later t.left t.objects (string_bytes t.closing)) };
}

impl ListText {
    ghost use Rattle.std.specs.Prelude.{◌≡◌, ◌++◌, [], IfErr, IfOk, OnOk, length, nat_lt, string_bytes};
    ghost use Rattle.server.specs.PageTexts.{first_page_text};

    /// Returns the text of a page. The error is running out of memory.
    pub(crate) fn of(alloc: Global, page: SharedPage) -> Result<ListText, AllocError>
        ensures { IfOk result (λ t. t ≡ first_page_text page.revision page.limit page.objects) }
    {
        let kind = page.objects.view().kind;
        let before = opening_text(alloc, kind)?;
        let end = end_of(alloc, &page)?;
        let len = sum(
            sum(before.as_str().len(), end.items_len)?,
            end.closing.as_str().len(),
        )?;
        Ok(ListText {
            kind,
            before,
            objects: page.objects.into_members(),
            left: end.count,
            later: false,
            closing: end.closing,
            len,
        })
    }

    /// Returns how long it is. It takes no memory.
    pub fn len(&self) -> usize
        ensures { result ≡ length self.now }
    {
        self.len
    }

    /// Returns whether some of it is still to be made.
    pub fn has_more(&self) -> bool
        ensures { result ≡ nat_lt 0 (length self.now) }
    {
        self.len > 0
    }

    /// Makes what comes next, and adds it to a text: one item, and as many as make the text up to 256 KiB long, the last of them whole, with what
    /// comes before them or after all of them. The error is running out of memory: then all is still to be made, and some may have been added.
    pub fn push_next(&mut self, alloc: Global, text: &mut String) -> Result<(), AllocError>
        ensures made { OnOk result (string_bytes text.old ++ self.old ≡ string_bytes text.new ++ self.new) }
        ensures kept { IfErr result (λ _. self.new ≡ self.old) }
        ensures some { OnOk result (string_bytes text.new ≡ [] → self.new ≡ []) }
    {
        let start = text.as_str().len();
        text.push_str(self.before.as_str())?;
        let stop = push_some(alloc, text, &self.objects, self.left, self.later)?;
        match stop {
            Some(stop) => {
                self.len -= text.as_str().len() - start;
                self.before = String::new(alloc);
                self.objects.go_past(stop.key);
                self.left = stop.left;
                self.later = true;
                Ok(())
            }
            None => {
                text.push_str(self.closing.as_str())?;
                self.end(alloc);
                Ok(())
            }
        }
    }

    /// Has nothing more.
    fn end(&mut self, alloc: Global)
        ensures { self.new ≡ [] }
    {
        self.before = String::new(alloc);
        self.objects = ViewSnapshot::none(alloc, self.kind);
        self.left = 0;
        self.closing = String::new(alloc);
        self.len = 0;
    }
}
