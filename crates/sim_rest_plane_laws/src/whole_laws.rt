//! Laws of control planes at rest.
ghost use Rattle.sim_rest_laws.specs.WholeLaws.{LastReadsLead, NothingIsLeftAtRest, RunsAreReached, RunsShowLists};
ghost use Rattle.sim_rest_plane_laws.specs.FirstCommandLaws.{LastPlansFollow};
ghost use Rattle.sim_rest_plane_laws.specs.PlanePassLaws.{LastWritesAreUnowed, ListedNames, PlanesPass, StatesArePassed};
ghost use Rattle.sim_rest_plane_laws.specs.RestLaws.{LastPlansAreEmpty};
ghost use Rattle.sim_settled_laws.specs.SettledLaws.{DeletionsAreBlockedAtRest, DeploymentsAreRolledOutAtRest, ItemsAreOwnedAtRest, SetsAreAsDeclaredAtRest};

/// Over every list of steps, each delta that waits, unless it gives the whole map, is the next change at the server, or tells of none.
pub fn planes_pass()
    ensures { PlanesPass }
{}

/// Over every list of steps, where the first list of a kind was published, a revision is published with it.
pub fn listed_names()
    ensures { ListedNames }
{}

/// What has happened in a run can happen.
pub fn runs_are_reached()
    ensures { RunsAreReached }
{}

/// What an informer has published is the server's list at a revision that has happened.
pub fn runs_show_lists()
    ensures { RunsShowLists }
{}

/// At rest, each live read in a last turn leads to what is there by changes that owed its key nothing.
pub fn last_reads_lead()
    ensures { LastReadsLead }
{}

/// At rest, from what was published at a point since the take of a last turn changes that owed its key nothing lead, through what was
/// there at any later revision, to what is there.
pub fn states_are_passed()
    ensures { StatesArePassed }
{}

/// At rest, what each command of a last turn wrote was published later, and handled, by changes that owed the turn's key nothing.
pub fn last_writes_are_unowed()
    ensures { LastWritesAreUnowed }
{}

/// Where the first commands of a controller owe the keys of their turns, its last plans were empty, whatever steps are taken.
pub fn last_plans_follow()
    ensures { LastPlansFollow }
{}

/// At rest, the plan of a last turn of a controller for each object that it looks after, and that is there, was empty, whatever steps are
/// taken.
pub fn last_plans_are_empty()
    ensures { LastPlansAreEmpty }
{}

/// At rest, the plan of each controller, of what is there, is empty: nothing is left to do.
pub fn nothing_is_left_at_rest()
    ensures { NothingIsLeftAtRest }
{}

/// At rest, each ReplicaSet that is not being deleted has just as many active pods as it asks for, all match, and its status counts them.
pub fn sets_are_as_declared_at_rest()
    ensures { SetsAreAsDeclaredAtRest }
{}

/// At rest, each Deployment that goes on and is rolled, with all pods of its sets available, is rolled out.
pub fn deployments_are_rolled_out_at_rest()
    ensures { DeploymentsAreRolledOutAtRest }
{}

/// At rest, each owner of a served kind that an object names is there, unless the object is being deleted.
pub fn items_are_owned_at_rest()
    ensures { ItemsAreOwnedAtRest }
{}

/// At rest, each object that is being deleted has no dependents that are to be orphaned, and where it waits for them to go, one of them blocks
/// it.
pub fn deletions_are_blocked_at_rest()
    ensures { DeletionsAreBlockedAtRest }
{}
