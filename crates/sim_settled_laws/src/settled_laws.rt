//! Plans at rest.
ghost use Rattle.sim_rest_laws.specs.WholeLaws.{EmptyPlansStay};
ghost use Rattle.sim_settled_laws.specs.SettledLaws.{DeletionsFollow, DeploymentsFollow, ItemsFollow, SetsFollow};

/// A plan that was empty stays empty, where all that came since owed its key nothing.
pub fn empty_plans_stay()
    ensures { EmptyPlansStay }
{}

/// Where nothing is left to do at rest, a ReplicaSet that is not being deleted has just as many active pods as it asks for, all of its
/// own match, no matching one is without a controller, and its status counts them.
pub fn sets_follow()
    ensures { SetsFollow }
{}

/// A Deployment that goes on and is rolled, and all of whose sets have all their pods available, is rolled out: its new set is to have
/// all pods, the old ones none.
pub fn deployments_follow()
    ensures { DeploymentsFollow }
{}

/// And each owner of a served kind that an object names is there, unless the object is being deleted.
pub fn items_follow()
    ensures { ItemsFollow }
{}

/// And an object that is being deleted has no dependents that are to be orphaned, and where it waits for them to go, one of them blocks it.
pub fn deletions_follow()
    ensures { DeletionsFollow }
{}
