//! Worked facts of watches, which the checker computes from the definitions.
ghost use Rattle.spec_examples.specs.WatchExamples.{WritesAreSeen, ViewsAreKept, WatchesBegin, BookmarksAreSaid, ErrorsAreSaid, FramesAreRead, OthersAreRefused, WatchesAreReplayed, QueriesAreRead, QueriesAreRefused, SelectionsAreLeft};

/// What a watch shows of some writes.
pub fn changes_are_seen()
    // A create, an update and a removal are seen as ADDED, MODIFIED and DELETED, the last at its own revision.
    ensures writes_are_seen { WritesAreSeen }
    // A watch of all namespaces sees each of them, and a watch of another kind sees nothing.
    ensures views_are_kept { ViewsAreKept }
    // A watch sees the writes after its revision alone.
    ensures watches_begin { WatchesBegin }
    // What a watch that selects by a label shows of an object that loses it and has it again.
    ensures selections_are_left { SelectionsAreLeft }
    // A watch in a replay: its count and its frames, and the refusal of a revision that is not there yet.
    ensures watches_are_replayed { WatchesAreReplayed }
{}

/// The bytes of a watch, written and read.
pub fn frames_are_exact()
    // The bytes of a bookmark, and of the one that closes the initial events.
    ensures bookmarks_are_said { BookmarksAreSaid }
    // The bytes of an error in a watch that has begun.
    ensures errors_are_said { ErrorsAreSaid }
    // A whole line is read, and what follows it is buffered.
    ensures frames_are_read { FramesAreRead }
    // A line that is no frame ends what is read.
    ensures others_are_refused { OthersAreRefused }
{}

/// What the queries of lists and watches say.
pub fn watches_are_asked()
    // Queries of lists and watches, in many spellings.
    ensures queries_are_read { QueriesAreRead }
    // Queries that are refused, each for a reason of its own.
    ensures queries_are_refused { QueriesAreRefused }
{}
