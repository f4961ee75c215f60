//! What stands around each plan.
use object_keys::WorkKey;

/// What stands around each plan of a worker. Tests hold workers there; `Open` lets all pass.
pub trait Gate {
    /// Is passed before a turn looks at anything.
    fn before(&self, key: &WorkKey);

    /// Is passed once the turn's plan is made, before its first command.
    fn after(&self, key: &WorkKey);
}

/// A gate that lets everybody pass.
#[derive(Clone, Copy, Drop)]
pub struct Open;

impl Gate for Open {
    fn before(&self, _key: &WorkKey) {}

    fn after(&self, _key: &WorkKey) {}
}
