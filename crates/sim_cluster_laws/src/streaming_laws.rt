//! Laws of reflectors that ask for initial events, whatever bytes come.
ghost use Rattle.sim_cluster_laws.specs.StreamingLaws.{NothingIsGivenBefore, NothingIsGivenOfPieces, GivenByTheClosing, ClosingsAreGiven, GivenOfAllFrames, OnlyListsEndRefusals, ExpiriesStreamAgain, CutsDropInitialEvents, StepsKeepStreaming};

/// As long as no bookmark closes the initial events, no bytes make a reflector give anything or name another revision; after an end it drops
/// what it had of them and asks for a stream.
pub fn nothing_is_given_before()
    ensures { NothingIsGivenBefore }
{}

/// So it is of bytes in whatever pieces, from the start of a stream on.
pub fn nothing_is_given_of_pieces()
    ensures { NothingIsGivenOfPieces }
{}

/// What a reflector gives among initial events, if anything, begins with one whole map: that which the events before a closing bookmark of its kind
/// make, at the revision of that bookmark, which none of them is above.
pub fn given_by_the_closing()
    ensures { GivenByTheClosing }
{}

/// Events that can be played, and then a closing bookmark that none of them is above, do give the map that they make.
pub fn closings_are_given()
    ensures { ClosingsAreGiven }
{}

/// From the start of a stream on, in whatever pieces it comes, that map is what all events before the bookmark make, and nothing else.
pub fn given_of_all_frames()
    ensures { GivenOfAllFrames }
{}

/// After a refusal only a list leads on, to a watch from its revision; until it comes the revision stays.
pub fn only_lists_end_refusals()
    ensures { OnlyListsEndRefusals }
{}

/// An expiry leads a reflector that streams to the start of a stream, and leaves the revision.
pub fn expiries_stream_again()
    ensures { ExpiriesStreamAgain }
{}

/// A cut before the closing bookmark drops what came of the initial events, and leaves the revision.
pub fn cuts_drop_initial_events()
    ensures { CutsDropInitialEvents }
{}

/// Whatever comes, a reflector that streams stays one, and one that lists stays one.
pub fn steps_keep_streaming()
    ensures { StepsKeepStreaming }
{}
