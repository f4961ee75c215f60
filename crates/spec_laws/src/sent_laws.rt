//! Laws of what is stored and sent, for who takes it in.
ghost use Rattle.spec_laws.specs.SentLaws.{ObjectsAreKept, ChangesAreTold, ListsArePut, ListsAreRead, ListsNest, WatchesAreStreams};

/// Whoever asks, each object that is ever stored reads as itself, and has its name, its namespace, a uid and the
/// revision of its write: no client is sent an object that it can't take in.
pub fn objects_are_kept()
    ensures { ObjectsAreKept }
{}

/// Whoever asked before, each event that a watch of a kind shows is read as it stands, names its key and its
/// revision, and is short enough for a line.
pub fn changes_are_told()
    ensures { ChangesAreTold }
{}

/// Whoever asked before, who replaces what it has by the objects of a list of a kind has that list.
pub fn lists_are_put()
    ensures { ListsArePut }
{}

/// Whoever asked before, who reads the body of a list of a kind has its revision and its objects as they stand.
pub fn lists_are_read()
    ensures { ListsAreRead }
{}

/// Whoever asked before, the body of a list of a kind nests no deeper than what is read of a text.
pub fn lists_nest()
    ensures { ListsNest }
{}

/// What a watch is shown of the events after a revision is a stream from there to the present revision.
pub fn watches_are_streams()
    ensures { WatchesAreStreams }
{}
