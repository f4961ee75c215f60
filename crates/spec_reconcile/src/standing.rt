//! How the owners of objects stand.

/// How an owner stands, as it is read live.
#[derive(Clone, Copy)]
pub enum Standing {
    /// It is there, or of a kind that is not served.
    Solid,
    /// It is being deleted, and waits until its dependents are gone.
    Waiting,
    /// It is gone.
    Dangling,
}
