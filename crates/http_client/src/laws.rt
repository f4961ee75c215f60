//! What follows for a client and a server that speak with one another.
ghost use Rattle.http_client.specs.Laws.{CutRepliesAreNotWhole, LongerRepliesAreBeyond, OneWholeReplyIsSaid, WrittenRepliesAreWhole};

/// The bytes of an answer begin with at most one whole reply, however the end of its body is known.
pub fn one_whole_reply_is_said()
    ensures { OneWholeReplyIsSaid }
{}

/// What a server writes for a reply is read whole as that reply and as no other, whatever follows it.
pub fn written_replies_are_whole()
    ensures { WrittenRepliesAreWhole }
{}

/// A reply that is cut anywhere is read as none.
pub fn cut_replies_are_not_whole()
    ensures { CutRepliesAreNotWhole }
{}

/// Bytes that are refused as longer than a limit say no reply that is within it.
pub fn longer_replies_are_beyond()
    ensures { LongerRepliesAreBeyond }
{}
