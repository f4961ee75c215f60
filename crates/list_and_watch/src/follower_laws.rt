//! Laws of what followers publish.
ghost use Rattle.list_and_watch.specs.FollowerLaws.{ListsAreShown, PiecesAreShown, InitialStreamsAreShown};
ghost use Rattle.list_and_watch.specs.GivenLaws.{ChangesAreGivenOnce};

/// Whoever asked a server: a follower that takes in its list and publishes has the server's list at that revision, whatever it had
/// before.
pub fn lists_are_shown()
    ensures { ListsAreShown }
{}

/// Whoever asked a server: a follower that has the server's list, and takes in whatever part of a watch from there, in whatever pieces,
/// publishing after each, has the server's list at the revision that it names; and where the watch is cut then, it asks for the next from
/// there.
pub fn pieces_are_shown()
    ensures { PiecesAreShown }
{}

/// Whoever asked a server: a follower that asks for a stream of initial events, and takes in whatever part of it, in whatever pieces, publishing
/// after each, shows what it showed until the initial events are closed, and from then on the server's list at the revision that it names.
pub fn initial_streams_are_shown()
    ensures { InitialStreamsAreShown }
{}

/// Whatever lists, bytes, cuts, expiries and refusals come, and whenever a sink takes what it is owed: deltas lead from the map that the informer
/// began with to what is published, and what the sink has taken and then what it is owed are their changes, in order, each once.
pub fn changes_are_given_once()
    ensures { ChangesAreGivenOnce }
{}
