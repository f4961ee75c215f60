//! Laws of versions, uids and owner references, over all that can have happened at a server.
ghost use Rattle.spec_laws.specs.IdentityLaws.{VersionsTellWrites, VersionsNameOneWrite, UidsTellCreates, UidsAreGivenOnce, DeletionsStand, OwnersAreKnown};

/// An object that is there is what the write of its version put.
pub fn versions_tell_writes()
    ensures { VersionsTellWrites }
{}

/// Two objects, whenever they were there, that name one version are one object under one key.
pub fn versions_name_one_write()
    ensures { VersionsNameOneWrite }
{}

/// An object that is there has the uid of the revision that created it, and has stood under its key ever since.
pub fn uids_tell_creates()
    ensures { UidsTellCreates }
{}

/// Two objects, whenever they were there, that have one uid have one key.
pub fn uids_are_given_once()
    ensures { UidsAreGivenOnce }
{}

/// An object that is gone is never there again with its uid, and one that is being deleted stays so until then.
pub fn deletions_stand()
    ensures { DeletionsStand }
{}

/// No object that is there at a revision names as its owner one that was created at that revision or after it.
pub fn owners_are_known()
    ensures { OwnersAreKnown }
{}
