//! Whose expectations aged out.
use object_keys::WorkKey;

/// The ReplicaSets whose expectations aged out until a moment.
#[derive(Drop)]
pub struct AgedOut {
    /// Their keys, each once, in order.
    pub keys: Vec<WorkKey>,
    /// The moment, in milliseconds.
    pub moment: u64,
}
