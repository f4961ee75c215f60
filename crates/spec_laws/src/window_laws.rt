//! Laws of windows.
ghost use Rattle.spec_laws.specs.WindowLaws.{WindowsOpen, WindowsRecord, WindowsStay, WindowsCompact, RecordedChangesArePast, WatchesAreServed, ListsAreUndone, RevisionsAreServed, CompactionsChangeNothing, WideWindowsServeAll};

/// A new window follows a history in which nothing has happened.
pub fn windows_open()
    ensures { WindowsOpen }
{}

/// A window that records each change of its kind goes on following what happens.
pub fn windows_record()
    ensures { WindowsRecord }
{}

/// A write of another kind leaves a window as it is, and the window goes on following what happens.
pub fn windows_stay()
    ensures { WindowsStay }
{}

/// A window that is told of each compaction goes on following what happens.
pub fn windows_compact()
    ensures { WindowsCompact }
{}

/// What a window records is no later than the present revision, so each next write has a revision above all of it.
pub fn recorded_changes_are_past()
    ensures { RecordedChangesArePast }
{}

/// A watch that is served from a window gets just the events since its revision: none is lost and
/// none is made up.
pub fn watches_are_served()
    ensures { WatchesAreServed }
{}

/// A list of an earlier revision, made of the present one by undoing recorded changes, shows just what was there.
pub fn lists_are_undone()
    ensures { ListsAreUndone }
{}

/// No revision from the floor up to the present one is refused, and none below or above is served.
pub fn revisions_are_served()
    ensures { RevisionsAreServed }
{}

/// A compaction changes no object and no list, at no revision.
pub fn compactions_change_nothing()
    ensures { CompactionsChangeNothing }
{}

/// Where there is room for all writes of a kind and nothing is compacted, no watch and no list is ever expired.
pub fn wide_windows_serve_all()
    ensures { WideWindowsServeAll }
{}
