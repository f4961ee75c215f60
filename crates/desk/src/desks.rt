//! A server that threads share, and the right to ask it.
use crate::askings::Asking;
use crate::entries::StoreEntry;
use crate::store_law::StoreLaw;
use baton::Baton;
use baton::views::PassView;
use server::Server;

/// The right to ask at a desk. What it has seen of the desk's history, and what it made of it, its calls say.
pub type StorePass = crossbeam_queue::Pass<Server, PassView<Server, StoreEntry>>;

/// A server that threads share: one call at a time has it.
pub struct Desk<A: Asking> {
    pub(crate) baton: Baton<Server, StoreLaw<A>>,
    pub(crate) window: usize,
}

impl<A: Asking> Drop for Desk<A> {
    // Called where one is dropped; a derived drop is proved anew at each such place.
    fn drop(self) {
        let Desk {
            baton: _baton,
            window: _window,
        } = self;
    }
}
