//! What comes of an attempt to take a key.
ghost use Rattle.std.specs.Prelude.{◌≡◌};

use crate::hands::KeyInHand;

/// What comes of an attempt to take a key.
pub(crate) enum Attempt<K> {
    /// It is in the hands of the pass.
    Taken(KeyInHand<K>),
    /// No key waits.
    NoneWaits,
    /// No key waits, and none will: the board is shut down.
    ShutDown,
}

impl<K> Attempt<K> {
    ghost use Rattle.shared_keyed_board.specs.Attempts.{key_taken, none_taken};

    /// Returns that no key waits, and whether none will.
    pub(crate) fn none(is_shut: bool) -> Attempt<K>
        ensures { result ≡ none_taken is_shut }
    {
        if is_shut {
            Attempt::ShutDown
        } else {
            Attempt::NoneWaits
        }
    }

    /// Returns the key that was taken, if one was.
    pub(crate) fn into_hand(self) -> Option<KeyInHand<K>>
        ensures { result ≡ key_taken self }
    {
        match self {
            Attempt::Taken(hand) => Some(hand),
            Attempt::NoneWaits => None,
            Attempt::ShutDown => None,
        }
    }
}
