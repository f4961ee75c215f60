//! Pages that share the objects of a store.
use store::PageSnapshot;

/// A page of what a view shows, as a list at a revision: the first, of at most `limit` objects, or of all if it is 0.
#[derive(Drop)]
pub struct SharedPage {
    pub objects: PageSnapshot,
    pub revision: u64,
    pub limit: usize,
}
