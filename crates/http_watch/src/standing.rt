//! Where a watch stands.

/// Where a watch stands.
#[derive(Clone, Copy)]
pub struct WatchStanding {
    /// The revision up to which all events were given.
    pub revision: u64,
    /// How many looks in a row have given no line.
    pub idle: u64,
}
