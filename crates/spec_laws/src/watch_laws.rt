//! Laws of events and streams.
ghost use Rattle.spec_laws.specs.WatchLaws.{ChangesAreApplied, ChangesGoOn, ChangesLieBetween, StreamsAreApplied, InitialStreamsAreApplied};

/// Who has the list at one revision and takes in the events after it has the list at the later one: a watch loses
/// nothing and makes nothing up.
pub fn changes_are_applied()
    ensures { ChangesAreApplied }
{}

/// The events up to a revision and those after it are all the events: a watch can be taken up again where it ended.
pub fn changes_go_on()
    ensures { ChangesGoOn }
{}

/// Each event has a revision above where the watch begins and above the events before it, and at most where it ends.
pub fn changes_lie_between()
    ensures { ChangesLieBetween }
{}

/// Who has the list where a stream begins and takes in its lines has the list where it ends, whatever bookmarks
/// stand between.
pub fn streams_are_applied()
    ensures { StreamsAreApplied }
{}

/// Who has nothing and takes in a stream that begins with its list has the list where it ends.
pub fn initial_streams_are_applied()
    ensures { InitialStreamsAreApplied }
{}
