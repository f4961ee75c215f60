//! Keys that were taken from a desk.
use object_keys::{PerKind, WorkKey};

/// A key that a worker took, and for each kind the highest revision that was handled before: what it is to look at is not older.
pub struct TakenKey {
    pub key: WorkKey,
    pub handled: PerKind<u64>,
}

impl Drop for TakenKey {
    // Called where one is dropped; a derived drop is proved anew at each such place.
    fn drop(self) {
        let TakenKey {
            key: _key,
            handled: _handled,
        } = self;
    }
}
