//! A key in a worker's hands.
ghost use Rattle.std.specs.Prelude.{◌≡◌};

use std::marker::Model;

/// A key in the hands of a pass. Contracts see it as the key. It can only be given back: its field is private, and it is not `Drop`, so
/// no caller can drop it or forget it.
pub struct KeyInHand<K> {
    key: K,
}

impl<K> Model for KeyInHand<K> {
    ghost Value = { K };

    ghost coded = { K.code };

    ghost view = { λ h. h.key };
}

impl<K> KeyInHand<K> {
    /// Returns a key as one that is in hand.
    pub(crate) fn new(key: K) -> KeyInHand<K>
        ensures { result ≡ key }
    {
        KeyInHand { key }
    }

    /// Returns the key.
    pub fn key(&self) -> &K
        ensures { result.now ≡ self.now }
    {
        &self.key
    }
}

impl<K: Drop> KeyInHand<K> {
    /// Lets go of a key that was given back.
    pub(crate) fn let_go(self) {
        let KeyInHand { key } = self;
        drop(key);
    }
}
