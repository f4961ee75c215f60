//! Laws of histories, of verbs, of uids and paths, and of lines one after another.
ghost use Rattle.spec_laws.specs.HistoryLaws.{MembersAreState, MembersAreInOrder, ListsShowTheState, ListsAreInOrder, PastStands, WritesSetState, WritesCarryTheirRevision, CreatesAreNew, NamedVersionsAreReplaced, WritesKeepIdentity, WritesFit, WritesHaveRoom, RefusalsWriteNothing, AnswersAreRead, UidsHoldRevisions, PathsAreRoutes, BodiesFit, RunsOnlyAdd, WindowsOnlyForget, ReadsAgain};

/// What is there under a key at a revision is what the last write to that key put there.
pub fn members_are_state()
    ensures { MembersAreState }
{}

/// What is there at a revision names each object once, in the order of kinds, namespaces and names.
pub fn members_are_in_order()
    ensures { MembersAreInOrder }
{}

/// A list has each object that it asks for, as it is at its revision, and no other.
pub fn lists_show_the_state()
    ensures { ListsShowTheState }
{}

/// A list has each object once, by namespace and name.
pub fn lists_are_in_order()
    ensures { ListsAreInOrder }
{}

/// What happens later changes nothing that was at an earlier revision.
pub fn past_stands()
    ensures { PastStands }
{}

/// A write changes what is under its key, and nothing else.
pub fn writes_set_state()
    ensures { WritesSetState }
{}

/// The version of each object that is stored is the revision of the write that stored it.
pub fn writes_carry_their_revision()
    ensures { WritesCarryTheirRevision }
{}

/// A create finds nothing under its key, and gives a uid that encodes its own revision.
pub fn creates_are_new()
    ensures { CreatesAreNew }
{}

/// An update that names a version takes effect only on exactly that version: no update between is lost.
pub fn named_versions_are_replaced()
    ensures { NamedVersionsAreReplaced }
{}

/// Whatever is written in the place of an object leaves its uid and its time of creation as they are.
pub fn writes_keep_identity()
    ensures { WritesKeepIdentity }
{}

/// No object that is stored is longer than an object may be, but for what a delete adds to it.
pub fn writes_fit()
    ensures { WritesFit }
{}

/// Whatever is accepted fits: who applies an accepted write is not refused for lack of room.
pub fn writes_have_room()
    ensures { WritesHaveRoom }
{}

/// After a refusal everything is as it was.
pub fn refusals_write_nothing()
    ensures { RefusalsWriteNothing }
{}

/// Who writes and then reads finds what the write was answered.
pub fn answers_are_read()
    ensures { AnswersAreRead }
{}

/// The revision of a create is read back from its uid, so no two creates of one history share a uid.
pub fn uids_hold_revisions()
    ensures { UidsHoldRevisions }
{}

/// A path is read only as what has just that path: none is read loosely.
pub fn paths_are_routes()
    ensures { PathsAreRoutes }
{}

/// No body is read that is longer than a body may be.
pub fn bodies_fit()
    ensures { BodiesFit }
{}

/// Whatever is asked, nothing that has happened is changed or forgotten.
pub fn runs_only_add()
    ensures { RunsOnlyAdd }
{}

/// How many changes are recorded for watches and lists of earlier revisions makes no difference to what happens.
pub fn windows_only_forget()
    ensures { WindowsOnlyForget }
{}

/// What was read reads as itself: who takes in what the server sent has what the server has.
pub fn reads_again()
    ensures { ReadsAgain }
{}
