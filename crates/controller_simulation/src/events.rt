//! What is told of a step.
use keyed_board::Outcome;
use sim_followers::ClusterOutcome;
use spec_api::kinds::Kind;

/// What is told of a step of a world, for checks of its author. What a worker asked last, and what came of it, its turn has (`ControllerTurn::past`).
#[derive(Drop)]
pub enum WorldEvent<K> {
    /// The step was not open, and changed nothing.
    NoStep,
    /// What is told of a step of the cluster.
    InCluster(ClusterOutcome),
    /// What follows the server, the board and the workers begin anew.
    Restarted,
    /// A published change of a kind was handled, and owed these keys.
    Handled(Kind, Vec<K>),
    /// All that is shown counted as a change that leaves it as it is, and owed these keys.
    OwedAgain(Vec<K>),
    /// A worker took the key that waits longest, or none waits.
    Took(u64, bool),
    /// A worker looked at what is published of a kind.
    Looked(u64, Kind),
    /// A worker asked something.
    Asked(u64),
    /// A worker gave this key back, and its reconcile ended so.
    Finished(u64, K, Outcome),
    /// A worker's reconcile, answered as before, asked something else than before.
    Differs(u64),
    /// It is this moment.
    Time(u64),
}
