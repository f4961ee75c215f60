//! What an empty plan says of what is there.
ghost use Rattle.reconcile_locality_laws.specs.SettledSets.{EmptyPlansAreOfSettledSets};
ghost use Rattle.reconcile_locality_laws.specs.SettledItems.{EmptyPlansAreOfOwned, EmptyPlansAreOfBlocked};
ghost use Rattle.reconcile_locality_laws.specs.SettledDeployments.{EmptyPlansAreOfRolledOut};

/// A ReplicaSet for which nothing is to be done controls just as many active pods as it asks for, and each matches; no other
/// active pod that matches is without a controller; and its status counts them.
pub fn empty_plans_are_of_settled_sets()
    ensures { EmptyPlansAreOfSettledSets }
{}

/// An object for which the garbage collector has nothing to do, and that is not being deleted, has no owner of a served kind that
/// is gone, or waits for its dependents to go.
pub fn empty_plans_are_of_owned()
    ensures { EmptyPlansAreOfOwned }
{}

/// One that is being deleted is not to orphan its dependents, and is blocked by one of them where it waits for them to go.
pub fn empty_plans_are_of_blocked()
    ensures { EmptyPlansAreOfBlocked }
{}

/// A Deployment that is rolled, neither paused nor being deleted, for which nothing is to be done, and whose sets have all their
/// pods available, has all pods in its new set, which is of the revision that is due.
pub fn empty_plans_are_of_rolled_out()
    ensures { EmptyPlansAreOfRolledOut }
{}
