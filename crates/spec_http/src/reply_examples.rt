//! What is written over connections, byte for byte, computed by the checker.
ghost use Rattle.spec_http.specs.ReplyExamples.{EmptyListIsWritten, RefusalIsWritten, WatchIsWritten, SizesAreHexadecimal, BodiesEnd, PatchIsRead, PhrasesAreCanonical};

/// Requests and what is written for them.
pub fn replies_are_written()
    // The list of an empty store, with its length.
    ensures empty_list_is_written { EmptyListIsWritten }
    // A refusal.
    ensures refusal_is_written { RefusalIsWritten }
    // A body ends where its length says, and half of one is answered nothing.
    ensures bodies_end { BodiesEnd }
    // A patch.
    ensures patch_is_read { PatchIsRead }
    // Each phrase is the canonical one of its code.
    ensures phrases_are_canonical { PhrasesAreCanonical }
{}

/// Watches, in chunks.
pub fn watches_are_written()
    // A watch as a whole.
    ensures watch_is_written { WatchIsWritten }
    // Each frame is a chunk, with its size in hexadecimal digits.
    ensures sizes_are_hexadecimal { SizesAreHexadecimal }
{}
