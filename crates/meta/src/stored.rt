//! Objects as they are stored.
ghost use Rattle.std.specs.Prelude.{◌≡◌, ◌≤◌, ◌++◌, Some, IfOk, OnOk, length, option_map, string_bytes, false};
ghost use Rattle.serde_json.specs.Data.{depth};
ghost use Rattle.serde_json.specs.Read.{read, max_depth};
ghost use Rattle.serde_json.specs.Written.{has_float, compact_text, IsInOrder};
ghost use Rattle.spec_api.specs.Metadata.{label};
ghost use Rattle.spec_api.specs.Verbs.{as_item};

use crate::objects::Object;
use crate::stored_texts::StoredTexts;
use spec_api::kinds::Kind;
use std::alloc::{AllocError, Global};
use std::marker::Model;
use std::sync::Arc;

/// An object as it is stored: its text as an item of a list, and what gives its whole text by that; both are made once, and copies share them. It
/// is read back only to be changed or compared.
pub struct StoredObject {
    kept: Arc<StoredTexts, Global>,
}

impl Drop for StoredObject {
    // Called where one is dropped; a derived drop is proved anew at each such place.
    fn drop(self) {
        let StoredObject { kept: _kept } = self;
    }
}

impl Model for StoredObject {
    ghost use Rattle.std.specs.Arc.{arc_value};
    ghost use Rattle.model_encodings.specs.Codes.{coded_object};
    ghost use Rattle.spec_api.specs.Objects as objects;

    ghost Value = { objects.Object };

    ghost coded = { coded_object };

    ghost view = { λ s. arc_value s.kept };
}

impl StoredObject {
    /// Returns the object as it is to be stored. The error is running out of memory.
    pub fn new(alloc: Global, object: &Object) -> Result<StoredObject, AllocError>
        ensures { IfOk result (λ s. s ≡ object.now) }
    {
        let kept = Arc::new(alloc, StoredTexts::new(alloc, object)?)?;
        Ok(StoredObject { kept })
    }

    /// Returns a copy of the object, which shares what is stored. The error is running out of memory.
    pub fn try_copy(&self) -> Result<StoredObject, AllocError>
        ensures { IfOk result (λ s. s ≡ self.now) }
    {
        let kept = Arc::try_clone(&self.kept)?;
        Ok(StoredObject { kept })
    }

    /// Returns the object, to be changed or compared. The error is running out of memory.
    pub fn open(&self, alloc: Global) -> Result<Object, AllocError>
        ensures { IfOk result (λ o. o ≡ self.now) }
    {
        self.kept.open(alloc)
    }

    /// Returns the object's kind.
    pub fn kind(&self) -> Kind
        ensures { result ≡ self.now.kind }
    {
        self.kept.kind()
    }

    /// Returns the object's text, with no space, which is read back as the object. It is made of what is stored. The error is running out of memory.
    pub fn to_text(&self, alloc: Global) -> Result<String, AllocError>
        ensures text { IfOk result (λ s. string_bytes s ≡ compact_text self.now.value) }
        ensures order { IfOk result (λ s. IsInOrder (string_bytes s) self.now.value) }
        ensures reads_back { IfOk result (λ s. depth self.now.value ≤ max_depth → read (string_bytes s) ≡ Some self.now.value) }
        ensures no_float { IfOk result (λ _. has_float self.now.value ≡ false) }
    {
        let mut text = String::with_capacity(alloc, self.likely_len())?;
        self.push_text(&mut text)?;
        Ok(text)
    }

    /// Adds the object's text, as `to_text` gives it, to another. The error is running out of memory.
    pub fn push_text(&self, text: &mut String) -> Result<(), AllocError>
        ensures text { OnOk result (string_bytes text.new ≡ string_bytes text.old ++ compact_text self.now.value) }
        ensures order { IsInOrder (compact_text self.now.value) self.now.value }
        ensures reads_back { depth self.now.value ≤ max_depth
            → read (compact_text self.now.value) ≡ Some self.now.value }
        ensures no_float { has_float self.now.value ≡ false }
    {
        self.kept.push_text(text)
    }

    /// Returns about how long the object's text is, a little more than less.
    pub fn likely_len(&self) -> usize {
        self.kept.likely_len()
    }

    /// Returns the object's text as an item of a list, which has no `apiVersion` and no `kind`. It stands there in one piece.
    pub fn item_text(&self) -> &str
        ensures { result.now ≡ compact_text (as_item self.now.value) }
    {
        self.kept.item()
    }

    /// Returns the value of a label.
    pub fn label(&self, name: &str) -> Option<&str>
        ensures { option_map (λ s. s.now) result ≡ label name.now self.now.value }
    {
        self.kept.label(name)
    }
}
