//! Laws of what a server answers to who asks for initial events.
ghost use Rattle.sim_cluster_laws.specs.ServedStreamLaws.{InitialWatchesAreAnswered, FutureStreamsAreRefused, OnlyTheFutureIsRefused, InitialsAreOfThePresent, ClosingsFollowTheList, NoneClosesEarly, UnmarkedStreamsShowChanges, PresentStartsGoOn, SentStreamsAreServed, ServedStreamsAreTakenIn, CutServedStreamsAreTakenIn};

/// A watch that asks for initial events, of a list no older than a revision up to the present one, is answered with bookmarks by an initial stream
/// at the present revision, the list and the bookmark that closes it, and without bookmarks by the list alone.
pub fn initial_watches_are_answered()
    ensures { InitialWatchesAreAnswered }
{}

/// A watch that asks for initial events at a revision above the present one is refused, and told both.
pub fn future_streams_are_refused()
    ensures { FutureStreamsAreRefused }
{}

/// A server refuses initial events of a revision above the present one alone, and tells both.
pub fn only_the_future_is_refused()
    ensures { OnlyTheFutureIsRefused }
{}

/// The initial events that a server gives are its list at the present revision, and name it.
pub fn initials_are_of_the_present()
    ensures { InitialsAreOfThePresent }
{}

/// In an initial stream one bookmark closes the initial events: it stands behind the whole list and names its revision.
pub fn closings_follow_the_list()
    ensures { ClosingsFollowTheList }
{}

/// No initial stream has a bookmark that closes it before an object of its list, whatever revision that names.
pub fn none_closes_early()
    ensures { NoneClosesEarly }
{}

/// Without bookmarks a stream of initial events shows the objects that are there, then each change after them, and nothing else.
pub fn unmarked_streams_show_changes()
    ensures { UnmarkedStreamsShowChanges }
{}

/// Whoever asked a server: a watch from the present revision shows nothing so far, stands there, and shows what happens then.
pub fn present_starts_go_on()
    ensures { PresentStartsGoOn }
{}

/// Whoever asked a server: the bytes of its initial events and of the looks after them are those of an initial stream from the present revision, each line
/// of which can be read.
pub fn sent_streams_are_served()
    ensures { SentStreamsAreServed }
{}

/// Whoever asked a server: its initial events and the looks after them, as bytes in whatever pieces, make of any map of a reflector that asks for
/// them the server's list where the last look stands, and the reflector watches from there.
pub fn served_streams_are_taken_in()
    ensures { ServedStreamsAreTakenIn }
{}

/// Whatever part of these bytes has come, in whatever pieces: nothing until the objects are there and closed, then the server's list at the revision
/// that the reflector names.
pub fn cut_served_streams_are_taken_in()
    ensures { CutServedStreamsAreTakenIn }
{}
