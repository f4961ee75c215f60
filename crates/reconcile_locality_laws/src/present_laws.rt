//! A plan that was empty is empty of what is there now, where nothing that came since owed a look.
ghost use Rattle.reconcile_locality_laws.specs.SettledAtPresent.{SetsAreSettledNow, SetsAreAsDeclaredNow, ItemsAreSettledNow, DeploymentsAreSettledNow};

/// Whatever happened: where nothing was to be done for a ReplicaSet, and all that was shown since leads to what is there by changes
/// that owed no look at it, nothing is to be done for it now.
pub fn sets_are_settled_now()
    ensures { SetsAreSettledNow }
{}

/// So the set controls just as many active pods as it asks for now, all that was expected having been seen, and its status counts them.
pub fn sets_are_as_declared_now()
    ensures { SetsAreAsDeclaredNow }
{}

/// So it is for an object that the garbage collector looked at.
pub fn items_are_settled_now()
    ensures { ItemsAreSettledNow }
{}

/// And for a Deployment, unless the name of its new set was taken while it waits for pods of old sets.
pub fn deployments_are_settled_now()
    ensures { DeploymentsAreSettledNow }
{}
