//! What comes of a step.
use sim_followers::ClusterOutcome;
use sim_manager::ToldOutcome;

/// What came of a step of a world.
#[derive(Drop)]
pub enum Outcome {
    /// Of a step of the cluster: it was taken, or was not open.
    InCluster(ClusterOutcome),
    /// Of any other step, with the line by which it is told.
    Work(ToldOutcome),
}
