//! Worked facts of what a change owes, which the checker computes from the definitions.
ghost use Rattle.spec_examples.specs.OwedExamples.{ControllersAreOwed, AdoptersAreOwed, OwnersAreOwed, BothAreOwed, DeploymentsAreOwed, DependentsAreOwed, DeletionsAreOwed, ReplacedOwnersOwe, LiveOwnersOweNone};

/// Which keys a Pod owes that is new, or has another controller than before.
pub fn pods_owe_their_sets()
    // A new Pod owes the ReplicaSet that controls it; the collector looks at both.
    ensures controllers { ControllersAreOwed }
    // One without a controller owes the ReplicaSet that selects it, and no other.
    ensures adopters { AdoptersAreOwed }
    // One that a ReplicaSet owns and does not control does not owe it, unless it is selected.
    ensures owners { OwnersAreOwed }
    // One whose controller changed owes both, and the Deployment over the earlier one.
    ensures both { BothAreOwed }
{}

/// A Pod that is gone owes the Deployment over its ReplicaSet, unless another ReplicaSet has that name by now.
pub fn deployments_are_owed()
    ensures { DeploymentsAreOwed }
{}

/// When a ReplicaSet owes its dependents.
pub fn sets_owe_their_pods()
    // One that is gone owes its dependents and its owner.
    ensures gone { DependentsAreOwed }
    // One that is being deleted owes itself too.
    ensures being_deleted { DeletionsAreOwed }
    // One whose name another has owes them as one that is gone does.
    ensures replaced { ReplacedOwnersOwe }
    // One that lives on does not owe its dependents.
    ensures live { LiveOwnersOweNone }
{}
