//! What the garbage collector never does.
ghost use Rattle.spec_laws.specs.CollectorLaws.{PlansDeleteGarbage, BlockingNobodyKeepsOwners, CutsKeepOwners, CollectorUpdatesOnlyFinish, CollectorSparesLiveOwners};

/// The collector plans to delete only an object that names owners, each of which was gone where it was read live; and each
/// delete names the uid of the object, and a version.
pub fn plans_delete_garbage()
    ensures { PlansDeleteGarbage }
{}

/// An object for which no owner waits any more has the owners that it had.
pub fn blocking_nobody_keeps_owners()
    ensures { BlockingNobodyKeepsOwners }
{}

/// What is stored by an update to that has the owners that the object had, too.
pub fn cuts_keep_owners()
    ensures { CutsKeepOwners }
{}

/// An update of the collector removes only what is being deleted already.
pub fn collector_updates_only_finish()
    ensures { CollectorUpdatesOnlyFinish }
{}

/// What a delete of the collector removes, or sets the deletionTimestamp of, has no live owner, whatever else happens.
pub fn collector_spares_live_owners()
    ensures { CollectorSparesLiveOwners }
{}
