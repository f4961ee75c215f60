//! The moments of delayed keys, in the order in which they come.

/// A key and the moment when it is added. Alarms go by moment, then key.
#[derive(PartialEq, Eq, PartialOrd, Ord, Drop)]
pub struct Alarm<K> {
    pub at: u64,
    pub key: K,
}
