//! Turns among keys.
ghost use Rattle.std.specs.Prelude.{◌≡◌, ◌≤◌, ◌+◌, ◌++◌, ◌∷◌, [], IfNone, IfSome, OnErr, OnOk, length, is_none, slice_get, slice_index_or, swap_remove};
ghost use Rattle.http_event_loop.specs.Rotas.{turn};

use std::alloc::{AllocError, Global};

/// Keys that take turns, each in its order.
#[derive(Drop)]
pub struct Rota {
    /// The keys, in their order.
    pub keys: Vec<usize>,
    /// The place of the key whose turn is next; beyond the last it is the first one's.
    pub next: usize,
}

impl Rota {
    /// Returns a rota of no keys.
    pub fn new(alloc: Global) -> Rota
        ensures { result.keys.items ≡ [] }
    {
        Rota {
            keys: Vec::new(alloc),
            next: 0,
        }
    }

    /// Returns how many keys take turns.
    pub fn len(&self) -> usize
        ensures { result ≡ length self.now.keys.items }
    {
        self.keys.len()
    }

    /// Returns whether no key takes turns.
    pub fn is_empty(&self) -> bool
        ensures { result ≡ is_none (slice_get self.now.keys.items 0) }
    {
        self.keys.is_empty()
    }

    /// Adds a key, whose turn comes after that of the last.
    pub fn add(&mut self, key: usize) -> Result<(), AllocError>
        ensures ok { OnOk result (self.new.keys.items ≡ self.old.keys.items ++ key ∷ []) }
        ensures err { OnErr result (self.new.keys.items ≡ self.old.keys.items) }
        ensures next { self.new.next ≡ self.old.next }
    {
        self.keys.push(key)?;
        Ok(())
    }

    /// Removes the key at a place, if there is one, and returns it. The last key takes its place.
    pub fn remove(&mut self, place: usize) -> Option<usize>
        ensures key { IfSome result (λ key. key ≡ slice_index_or self.old.keys.items place key) }
        ensures keys { IfSome result (λ key. self.new.keys.items ≡ swap_remove self.old.keys.items place key) }
        ensures none { IfNone result ((length self.old.keys.items ≤ place) × (self.new.keys.items ≡ self.old.keys.items)) }
        ensures next { self.new.next ≡ self.old.next }
    {
        if place >= self.keys.len() {
            return None;
        }
        Some(self.keys.swap_remove(place))
    }

    /// Returns the key whose turn it is, after which it is the next one's.
    pub fn take_turn(&mut self) -> Option<usize>
        ensures key { result ≡ slice_get self.old.keys.items (turn self.old.next (length self.old.keys.items)) }
        ensures next { self.new.next ≡ turn self.old.next (length self.old.keys.items) + 1 }
        ensures keys { self.new.keys ≡ self.old.keys }
    {
        let turn = if self.next < self.keys.len() {
            self.next
        } else {
            0
        };
        self.next = turn + 1;
        self.keys.get(turn).copied()
    }
}
