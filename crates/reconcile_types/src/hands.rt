//! What a worker has read in its turn.
ghost use Rattle.std.specs.Prelude.{◌≡◌, option_map};
ghost use Rattle.spec_client_go.specs.Hands.{live, is_read};
ghost use Rattle.object_keys.specs.Keys.{key_of};
ghost use Rattle.reconcile_types.specs.Hands.{reads_of};

use meta::Object;
use object_keys::{Key, PerKind};

/// A live read, and what it found.
pub struct Read {
    pub key: Key,
    pub found: Option<Object>,
}

impl Drop for Read {
    // Called where one is dropped; a derived drop is proved anew at each such place.
    fn drop(self) {
        let Read {
            key: _key,
            found: _found,
        } = self;
    }
}

/// What a plan is made of: the key of the turn, the looks that were taken, whether all pods that were expected have been
/// seen, and the live reads.
pub struct Hand<S> {
    pub key: Key,
    pub looks: PerKind<Option<S>>,
    pub is_satisfied: bool,
    pub reads: Vec<Read>,
}

impl<S: Drop> Drop for Hand<S> {
    // Called where one is dropped; a derived drop is proved anew at each such place.
    fn drop(self) {
        let Hand {
            key: _key,
            looks: _looks,
            is_satisfied: _is_satisfied,
            reads: _reads,
        } = self;
    }
}

/// Returns what the first live read of a key found. It takes no memory.
pub fn live<'a>(reads: &'a [Read], key: &Key) -> Option<&'a Object>
    ensures { option_map (λ o. o.now.value) result ≡ live (reads_of reads.now) (key_of key.now) }
{
    for read in reads {
        if key.cmp(&read.key).is_eq() {
            return read.found.as_ref();
        }
    }
    None
}

/// Returns whether a key was read live. It takes no memory.
pub fn is_read(reads: &[Read], key: &Key) -> bool
    ensures { result ≡ is_read (reads_of reads.now) (key_of key.now) }
{
    for read in reads {
        if key.cmp(&read.key).is_eq() {
            return true;
        }
    }
    false
}
