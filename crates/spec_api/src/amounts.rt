//! How many pods a rolling update may be above or below what is asked for.

/// A number of pods (Kubernetes API reference, RollingUpdateDeployment).
#[derive(Clone, Copy)]
pub enum Amount {
    /// So many pods.
    Pods(i64),
    /// So many of a hundred of the replicas.
    Percent(u64),
}
