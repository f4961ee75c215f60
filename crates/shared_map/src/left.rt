//! Entries that are still to be taken.
ghost use Rattle.std.specs.Prelude.{◌≡◌, ◌<◌, ◌^◌, [], length};
ghost use Rattle.shared_map.specs.Parts.{entries_left, joined, parts};

use std::alloc::Global;
use std::marker::Model;
use std::sync::Arc;

/// Some entries of a chunk.
pub(crate) type Part<'a, K, V> = &'a [Arc<(K, V), Global>];

/// Some chunks.
pub(crate) type Chunks<'a, K, V> = &'a [Arc<Vec<Arc<(K, V), Global>>, Global>];

/// Entries of a map that are taken one after another, in the order of keys. It is seen as those that are left.
#[derive(Drop)]
pub struct EntriesLeft<'a, K, V> {
    front: Part<'a, K, V>,
    chunks: Chunks<'a, K, V>,
    back: Part<'a, K, V>,
}

/// Goes on to the first that is not empty of a front, the chunks after it, and a back, and returns it and what is after it. The first is
/// empty only after all of them.
fn first_filled<'a, K, V>(
    mut front: Part<'a, K, V>,
    mut chunks: Chunks<'a, K, V>,
    mut back: Part<'a, K, V>,
) -> (Part<'a, K, V>, Chunks<'a, K, V>, Part<'a, K, V>)
    ensures same { entries_left result.0.now result.1.now result.2.now ≡ entries_left front.entry.now chunks.entry.now back.entry.now }
    ensures filled { result.0.now ≡ [] → (result.1.now ≡ []) × (result.2.now ≡ []) }
{
    while front.is_empty() {
        let Some((chunk, rest)) = chunks.split_first() else {
            (back, front) = (front, back);
            break;
        };
        front = chunk.as_slice();
        chunks = rest;
    }
    (front, chunks, back)
}

/// Returns how many entries chunks have.
fn entries_of<K, V>(chunks: Chunks<'_, K, V>) -> usize
    requires { length (joined (parts chunks.now)) < 2 ^ 64 }
    ensures { result ≡ length (joined (parts chunks.now)) }
{
    let mut count = 0;
    for chunk in chunks {
        count += chunk.len();
    }
    count
}

impl<'a, K, V> Model for EntriesLeft<'a, K, V> {
    ghost use Rattle.std.specs.Prelude.{List, ◌<◌, ◌^◌, length};
    ghost use Rattle.std.specs.Coded.{coded_list, coded×};
    ghost use Rattle.shared_map.specs.Parts.{entries_left};

    ghost Value = { List (K × V) };

    ghost coded = { coded_list (coded× K.code V.code) };

    ghost view = { λ e. entries_left e.front.now e.chunks.now e.back.now };

    ghost invariant = { λ e. length (entries_left e.front.now e.chunks.now e.back.now) < 2 ^ 64 };
}

impl<'a, K, V> EntriesLeft<'a, K, V> {
    ghost use Rattle.std.specs.Prelude.{◌≡◌, ◌<◌, ◌^◌, [], ◌∷◌, IfSome, IfNone, length};
    ghost use Rattle.shared_map.specs.Parts.{entries_left};

    /// Returns those of a front, of chunks and of a back, one after another.
    pub(crate) fn of(
        front: Part<'a, K, V>,
        chunks: Chunks<'a, K, V>,
        back: Part<'a, K, V>,
    ) -> EntriesLeft<'a, K, V>
        requires { length (entries_left front.now chunks.now back.now) < 2 ^ 64 }
        ensures { result ≡ entries_left front.entry.now chunks.entry.now back.entry.now }
    {
        EntriesLeft {
            front,
            chunks,
            back,
        }
    }

    /// Returns how many entries are left. It costs a look at each chunk.
    pub fn len(&self) -> usize
        ensures { result ≡ length self.now }
    {
        self.front.len() + entries_of(self.chunks) + self.back.len()
    }

    /// Takes the next entry. It takes no memory.
    pub fn take_next(&mut self) -> Option<&'a (K, V)>
        ensures some { IfSome result (λ e. self.old ≡ e.now ∷ self.new) }
        ensures none { IfNone result (self.old ≡ []) }
        ensures left { IfNone result (self.new ≡ []) }
    {
        let (front, chunks, back) = first_filled(self.front, self.chunks, self.back);
        let (entry, rest) = front.split_first()?;
        self.front = rest;
        self.chunks = chunks;
        self.back = back;
        Some(&**entry)
    }
}
