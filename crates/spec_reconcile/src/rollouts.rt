//! The numbers of a rollout.

/// How far a rolling update goes (Kubernetes API reference, RollingUpdateDeployment).
#[derive(Clone, Copy)]
pub struct Pace {
    /// How many pods are wanted.
    pub wanted: u64,
    /// How many there may be above them.
    pub surge: u128,
    /// How many of them may be unavailable.
    pub unavailable: u64,
}

/// The pods of a ReplicaSet, by its own numbers.
#[derive(Clone, Copy)]
pub struct Tally {
    /// How many it is to have.
    pub replicas: u64,
    /// How many of its pods are available.
    pub available: u64,
}

/// What the status of a Deployment says (Kubernetes API reference, DeploymentStatus).
#[derive(Clone, Copy)]
pub struct Summary {
    /// The pods of all its sets.
    pub replicas: u128,
    /// Those that are ready.
    pub ready: u128,
    /// Those that are available.
    pub available: u128,
    /// The pods of the new set.
    pub updated: u64,
    /// How many more are to be there than are available.
    pub unavailable: u128,
    /// The generation that was looked at.
    pub generation: u64,
}
