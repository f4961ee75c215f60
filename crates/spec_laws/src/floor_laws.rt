//! How far back a window answers, in a user's words.
ghost use Rattle.spec_laws.specs.FloorLaws.{RememberedAreServed};

/// A watch from a revision, or a list at it, is answered just if the revision has happened, no compaction passed it, and the
/// window has room for all writes of the kind since then.
pub fn remembered_are_served()
    ensures { RememberedAreServed }
{}
