//! What is stored of an object: its texts, and what is asked of it without reading them.
ghost use Rattle.std.specs.Prelude.{◌≡◌, ◌≤◌, ◌++◌, Some, IfOk, OnOk, codes, length, map, option_map, option_and_then, string_bytes, false, true, is_some};
ghost use Rattle.serde_json.specs.Data.{depth};
ghost use Rattle.serde_json.specs.Find.{as_object};
ghost use Rattle.serde_json.specs.Read.{read, max_depth};
ghost use Rattle.serde_json.specs.View.{view};
ghost use Rattle.serde_json.specs.Written.{has_float, compact_text, IsInOrder};
ghost use Rattle.spec_api.specs.Metadata.{label, metadata};
ghost use Rattle.spec_api.specs.Verbs.{as_item};
ghost use Rattle.meta.specs.Labels.{labels_of, label_of};
ghost use Rattle.meta.specs.Stored.{IsTree, tree_view};

use crate::labels::{Label, label_text, labels_in};
use crate::objects::Object;
use crate::whole_texts::WholeText;
use json_values::values::nests_within;
use serde_json::Value;
use spec_api::kinds::Kind;
use std::alloc::{AllocError, Global};
use std::marker::Model;

/// How deep a text may nest that is read back.
const GREATEST_DEPTH: u32 = 127;

/// About how much longer an object's text is than its text as an item of a list.
const MEMBERS_LEN: usize = 48;

/// An object by its texts. The text of its item stands in one piece, since long lists are made of these. A tree is stored only where the object
/// nests too deep for its text to be read back. No object that a request brings does, since bodies nest at most 100 deep.
#[derive(Drop)]
pub(crate) struct StoredTexts {
    kind: Kind,
    item: String,
    whole: WholeText,
    labels: Vec<Label>,
    tree: Option<Box<Value>>,
}

impl Model for StoredTexts {
    ghost use Rattle.std.specs.Prelude.{option_map, string_bytes};
    ghost use Rattle.model_encodings.specs.Codes.{coded_object};
    ghost use Rattle.spec_api.specs.Objects as objects;
    ghost use Rattle.meta.specs.Stored.{Keeps, data_kept, tree_view};
    ghost use Rattle.meta.specs.WholeTexts.{given};

    ghost Value = { objects.Object };

    ghost coded = { coded_object };

    ghost view = { λ k. record {
      kind = k.kind;
      value = data_kept (option_map tree_view k.tree) (given k.kind k.whole (string_bytes k.item));
    } };

    ghost invariant = { λ k. Keeps (data_kept (option_map tree_view k.tree) (given k.kind k.whole (string_bytes k.item)))
        k.kind (string_bytes k.item) k.whole k.labels.items };
}

impl StoredTexts {
    /// Returns what is to be stored of an object. The error is running out of memory.
    pub(crate) fn new(alloc: Global, object: &Object) -> Result<StoredTexts, AllocError>
        ensures { IfOk result (λ k. k ≡ object.now) }
    {
        let text = object.text(alloc)?;
        let item = item_text(alloc, object, text.len())?;
        let kind = object.kind();
        let whole = WholeText::new(kind, text, item.as_str());
        let labels = labels_of(alloc, object)?;
        let tree = tree_of(alloc, object.value())?;
        Ok(StoredTexts {
            kind,
            item,
            whole,
            labels,
            tree,
        })
    }

    /// Returns the kind.
    pub(crate) fn kind(&self) -> Kind
        ensures { result ≡ self.now.kind }
    {
        self.kind
    }

    /// Adds the object's text to another. The error is running out of memory.
    pub(crate) fn push_text(&self, text: &mut String) -> Result<(), AllocError>
        ensures text { OnOk result (string_bytes text.new ≡ string_bytes text.old ++ compact_text self.now.value) }
        ensures order { IsInOrder (compact_text self.now.value) self.now.value }
        ensures reads_back { depth self.now.value ≤ max_depth
            → read (compact_text self.now.value) ≡ Some self.now.value }
        ensures no_float { has_float self.now.value ≡ false }
    {
        self.whole.push_to(self.kind, self.item.as_str(), text)
    }

    /// Returns about how long the object's text is.
    pub(crate) fn likely_len(&self) -> usize {
        self.item.len().saturating_add(MEMBERS_LEN)
    }

    /// Returns the object's text as an item of a list, which has no `apiVersion` and no `kind`.
    pub(crate) fn item(&self) -> &str
        ensures { result.now ≡ compact_text (as_item self.now.value) }
    {
        self.item.as_str()
    }

    /// Returns the value of a label.
    pub(crate) fn label(&self, name: &str) -> Option<&str>
        ensures { option_map (λ s. s.now) result ≡ label name.now self.now.value }
    {
        label_text(&self.labels, name)
    }

    /// Returns the object, read from its text, or a copy of the tree. The error is running out of memory.
    pub(crate) fn open(&self, alloc: Global) -> Result<Object, AllocError>
        ensures { IfOk result (λ o. o ≡ self.now) }
    {
        let value = match &self.tree {
            Some(tree) => (**tree).clone()?,
            None => self.read_back(alloc)?,
        };
        Ok(Object::from_whole(self.kind, value))
    }

    /// Returns the value of the object's text. It has one, so the error is running out of memory.
    fn read_back(&self, alloc: Global) -> Result<Value, AllocError>
        ensures { IfOk result (λ v. read (compact_text self.now.value) ≡ Some (view v)) }
    {
        let mut text = String::with_capacity(alloc, self.likely_len())?;
        self.push_text(&mut text)?;
        match Value::from_str(alloc, text.as_str()) {
            Ok(value) => Ok(value),
            Err(_) => Err(AllocError),
        }
    }
}

/// Returns the object's text as an item of a list, in no more memory than it takes. The length is that of its whole text, a little more.
fn item_text(alloc: Global, object: &Object, len: usize) -> Result<String, AllocError>
    ensures { IfOk result (λ s. string_bytes s ≡ compact_text (as_item object.now.value)) }
{
    let mut text = String::with_capacity(alloc, len)?;
    object.push_item_text(alloc, &mut text)?;
    text.shrink_to_fit();
    Ok(text)
}

/// Returns the object's labels.
fn labels_of(alloc: Global, object: &Object) -> Result<Vec<Label>, AllocError>
    ensures { IfOk result (λ v. map label_of v.items
        ≡ labels_of (option_and_then as_object (metadata (codes "labels") object.now.value))) }
{
    match object.labels() {
        Some(members) => labels_in(alloc, members),
        None => Ok(Vec::new(alloc)),
    }
}

/// Returns a copy of the value, where its text would not be read back.
fn tree_of(alloc: Global, value: &Value) -> Result<Option<Box<Value>>, AllocError>
    ensures { IfOk result (λ o. IsTree (option_map tree_view o) (view value.now)) }
{
    if nests_within(value, GREATEST_DEPTH) {
        return Ok(None);
    }
    Ok(Some(Box::new(alloc, value.clone()?)?))
}
