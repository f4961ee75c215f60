//! What follows for a client and a server that speak with one another.
ghost use Rattle.spec_http.specs.ClientLaws.{OneReplyIsSaid, RepliesOpenNoWatch, WholeRepliesStay, WrittenRepliesAreRead, CutRepliesAreLost, WrittenWatchesAreRead, WatchesAreReadInPieces};

/// The bytes of an answer say at most one reply.
pub fn one_reply_is_said()
    ensures { OneReplyIsSaid }
{}

/// Bytes that say a reply open no watch.
pub fn replies_open_no_watch()
    ensures { RepliesOpenNoWatch }
{}

/// A whole reply stays that reply, whatever follows it.
pub fn whole_replies_stay()
    ensures { WholeRepliesStay }
{}

/// What a server writes for a reply is read as that reply, whatever follows it.
pub fn written_replies_are_read()
    ensures { WrittenRepliesAreRead }
{}

/// A reply that is cut anywhere is read as none.
pub fn cut_replies_are_lost()
    ensures { CutRepliesAreLost }
{}

/// What a server writes for a watch is read as a watch of its frames.
pub fn written_watches_are_read()
    ensures { WrittenWatchesAreRead }
{}

/// What a server writes for a watch, whole or cut anywhere, is read in any pieces as a beginning of the bytes of its chunks, and as all of
/// them where its end is read.
pub fn watches_are_read_in_pieces()
    ensures { WatchesAreReadInPieces }
{}
