//! The law of no overshoot.
ghost use Rattle.sim_overshoot_laws.specs.Overshoot.{NoOvershoot};

/// Over every list of steps, restarts included, the active pods that the ReplicaSet controller created for a set are never more than the greatest number
/// of replicas that the set had: where no yes is by age alone, nobody else gives a pod the reference to the set, takes it away or changes the labels of a
/// pod that has it, and a finished pod of the set stays so.
pub fn no_overshoot()
    ensures { NoOvershoot }
{}
