//! Laws of what a change owes: who reads what changed looks again.
ghost use Rattle.informer_laws.specs.OwedLaws.{SelectingSetsAreOwed, ControllersAreOwed, OwnersAreOwed, DependentsAreOwed};

/// Each ReplicaSet that is looked at in the namespace of a Pod without a controller, and whose selector matches its labels, is
/// looked at again by the ReplicaSet controller.
pub fn selecting_sets_are_owed()
    ensures { SelectingSetsAreOwed }
{}

/// The ReplicaSets that a Pod names as its controllers, and those that it named before the change, are looked at again by the
/// ReplicaSet controller.
pub fn controllers_are_owed()
    ensures { ControllersAreOwed }
{}

/// The owners of served kinds that an object names, and those that it named before the change, are looked at again by the
/// collector.
pub fn owners_are_owed()
    ensures { OwnersAreOwed }
{}

/// Each object that is looked at and names as its owner what is gone, is being deleted, or has another under its name, is looked at
/// again by the collector.
pub fn dependents_are_owed()
    ensures { DependentsAreOwed }
{}
