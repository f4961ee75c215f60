//! How much a store may hold.

/// The most objects that there may be.
pub const MOST_OBJECTS: usize = 262144;
