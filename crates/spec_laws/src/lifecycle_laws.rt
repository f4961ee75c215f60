//! What becomes of objects, whatever is asked.
ghost use Rattle.spec_laws.specs.LifecycleLaws.{DeletesSpareFinalizers, LastFinalizersRemove, WritesKeepDeletions, NoFinalizerIsAdded, NewUidsAreUnused, GenerationsCount, GenerationsBegin, StatusesChangeNothingElse, UpdatesReplaceTheirVersion, StatusesReplaceTheirVersion, PatchesReplaceTheirVersion, DeletesRemoveTheirVersion, DeletesFindTheirUid, NoWriteNoChange};

/// A delete removes no object that has a finalizer, but those by which a policy is known; without a policy, none that has
/// any.
pub fn deletes_spare_finalizers()
    ensures { DeletesSpareFinalizers }
{}

/// Any other request removes an object only while it is being deleted, by removing its last finalizer.
pub fn last_finalizers_remove()
    ensures { LastFinalizersRemove }
{}

/// An object that is being deleted stays so, since the moment at which that began, until it is removed.
pub fn writes_keep_deletions()
    ensures { WritesKeepDeletions }
{}

/// An object that is being deleted gets no finalizer that it has not, but that of a delete's policy.
pub fn no_finalizer_is_added()
    ensures { NoFinalizerIsAdded }
{}

/// Whoever asked before, a new object's uid is that of no object that was ever there.
pub fn new_uids_are_unused()
    ensures { NewUidsAreUnused }
{}

/// A generation rises by one where a spec, or a Deployment's annotations, is another or a deletion begins, and only there.
pub fn generations_count()
    ensures { GenerationsCount }
{}

/// The generation of a new ReplicaSet or Deployment is 1.
pub fn generations_begin()
    ensures { GenerationsBegin }
{}

/// An update of the status changes the status and the version, and nothing else.
pub fn statuses_change_nothing_else()
    ensures { StatusesChangeNothingElse }
{}

/// An update that names a version writes, or removes, in the place of exactly that version.
pub fn updates_replace_their_version()
    ensures { UpdatesReplaceTheirVersion }
{}

/// An update of the status that names a version writes in the place of exactly that version.
pub fn statuses_replace_their_version()
    ensures { StatusesReplaceTheirVersion }
{}

/// A patch that names a version writes, or removes, in the place of exactly that version.
pub fn patches_replace_their_version()
    ensures { PatchesReplaceTheirVersion }
{}

/// A delete that names a version removes exactly that version, or sets its deletionTimestamp.
pub fn deletes_remove_their_version()
    ensures { DeletesRemoveTheirVersion }
{}

/// A delete that names a uid removes the object with that uid, or sets its deletionTimestamp, and no later one under its key.
pub fn deletes_find_their_uid()
    ensures { DeletesFindTheirUid }
{}

/// What writes nothing changes nothing.
pub fn no_write_no_change()
    ensures { NoWriteNoChange }
{}
