//! What is to be seen in a turn.
ghost use Rattle.std.specs.Prelude.{◌≡◌, drop, option_map};
ghost use Rattle.spec_sim.specs.NextSteps.{first, order};
ghost use Rattle.reconcile_turn.specs.Sightings.{sighting_of};

use spec_api::kinds::Kind;
use spec_client_go::controller::Controller;

/// What is to be seen.
#[derive(Clone, Copy)]
pub enum Sighting {
    /// What is published of a kind.
    OfKind(Kind),
    /// Whether all pods that were expected have been seen.
    OfExpectations,
}

/// What is to be seen for a ReplicaSet, in order: its pods only once it is known whether all that were expected have been seen.
const OF_REPLICA_SETS: [Sighting; 3] = [
    Sighting::OfKind(Kind::ReplicaSet),
    Sighting::OfExpectations,
    Sighting::OfKind(Kind::Pod),
];

/// What is to be seen for a Deployment, in order.
const OF_DEPLOYMENTS: [Sighting; 3] = [
    Sighting::OfKind(Kind::Deployment),
    Sighting::OfKind(Kind::ReplicaSet),
    Sighting::OfKind(Kind::Pod),
];

/// What is to be seen by the collector, in order.
const OF_THE_COLLECTOR: [Sighting; 4] = [
    Sighting::OfKind(Kind::ConfigMap),
    Sighting::OfKind(Kind::Pod),
    Sighting::OfKind(Kind::ReplicaSet),
    Sighting::OfKind(Kind::Deployment),
];

/// Returns what is to be seen next in a turn of a controller, after so many sights, if anything is. It takes no memory.
pub fn next_sighting(controller: Controller, seen: usize) -> Option<Sighting>
    ensures { option_map sighting_of result ≡ first (drop seen (order controller)) }
{
    match controller {
        Controller::ReplicaSet => OF_REPLICA_SETS.get(seen).copied(),
        Controller::Deployment => OF_DEPLOYMENTS.get(seen).copied(),
        Controller::Collector => OF_THE_COLLECTOR.get(seen).copied(),
    }
}
