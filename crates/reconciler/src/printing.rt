//! Keys that can be shown to who runs a controller.
ghost use Rattle.std.specs.Prelude.{List, IfOk, string_bytes, ℕ, ⊤};

use object_keys::{Key, WorkKey};
use std::alloc::{AllocError, Global};

/// A key that has a text, by which notes call it.
pub trait Printable {
    /// What the text says: any relation.
    ghost reads: { Self → List ℕ → Type 0 } = { λ key text. ⊤ };

    /// Returns the text. The error is running out of memory.
    fn printed(&self, alloc: Global) -> Result<String, AllocError>
        ensures { IfOk result (λ text. reads self.now (string_bytes text)) };
}

impl Printable for String {
    ghost use Rattle.std.specs.Prelude.{◌≡◌, string_bytes};

    ghost reads = { λ key text. text ≡ string_bytes key };

    fn printed(&self, _alloc: Global) -> Result<String, AllocError> {
        self.clone()
    }
}

impl Printable for Key {
    ghost use Rattle.std.specs.Prelude.{◌≡◌};
    ghost use Rattle.object_keys.specs.Keys.{key_of};
    ghost use Rattle.reconciler.specs.Printed.{key_text};

    ghost reads = { λ key text. text ≡ key_text (key_of key) };

    fn printed(&self, alloc: Global) -> Result<String, AllocError> {
        let mut text = String::from_str(alloc, self.kind.name())?;
        text.push_str(" ")?;
        text.push_str(self.namespace.as_str())?;
        text.push_str("/")?;
        text.push_str(self.name.as_str())?;
        Ok(text)
    }
}

impl Printable for WorkKey {
    ghost use Rattle.std.specs.Prelude.{◌≡◌};
    ghost use Rattle.object_keys.specs.Keys.{key_of};
    ghost use Rattle.reconciler.specs.Printed.{key_text};

    ghost reads = { λ key text. text ≡ key_text (key_of key.key) };

    fn printed(&self, alloc: Global) -> Result<String, AllocError> {
        self.key.printed(alloc)
    }
}
