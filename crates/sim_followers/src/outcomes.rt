//! What is told of a step.
use meta::Kind;
use spec_client_go::reflectors::End;

/// What is told of a step.
#[derive(Drop)]
pub enum ClusterOutcome {
    /// The line that a request is answered, or nothing.
    Replied(Vec<u8>),
    /// The step was not open, and changed nothing.
    NoStep,
    /// A list was taken in: its revision, and how many objects it has.
    Listed(Kind, u64, u64),
    /// A watch was opened from a revision.
    Opened(Kind, u64),
    /// A watch was opened that begins with all that is there at a revision.
    Streaming(Kind, u64),
    /// A watch was refused, and what is there is asked for again.
    Expired(Kind),
    /// So many frames were written.
    Sent(Kind, u64),
    /// Bytes were taken in: the revision from then on, and why the watch is over, if it is.
    Fed(Kind, u64, Option<End>),
    /// The link was cut at a revision.
    Cut(Kind, u64),
    /// What waited was published: the revision, and how many objects there are.
    Published(Kind, u64, u64),
    /// All followers begin anew.
    Restarted,
}
