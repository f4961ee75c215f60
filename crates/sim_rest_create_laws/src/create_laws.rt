//! Laws of what is created.
ghost use Rattle.sim_rest_create_laws.specs.CreateLaws.{PodCreatesOwe};

/// An accepted create of a pod of a ReplicaSet owes its key.
pub fn pod_creates_owe()
    ensures { PodCreatesOwe }
{}
