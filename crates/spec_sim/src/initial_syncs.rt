//! How what follows a server begins.

/// How a follower takes in at first all that is there.
#[derive(Clone, Copy)]
pub enum InitialSync {
    /// By a list.
    List,
    /// By a watch that begins with all objects and a closing bookmark.
    Stream,
}
