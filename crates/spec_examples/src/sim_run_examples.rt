//! Worked facts of whole runs.
ghost use Rattle.spec_examples.specs.SimRunExamples.{LettersAreCut, WatchesExpire, BookmarksAreSent, RestartsBeginAnew, LinesAreAnswered};

/// A watch that is cut within a letter is opened again where the reflector is, and nothing is lost.
pub fn letters_are_cut()
    ensures { LettersAreCut }
{}

/// A watch from below the floor ends in an ERROR frame, after which a list is asked for.
pub fn watches_expire()
    ensures { WatchesExpire }
{}

/// A bookmark is sent where no change is left to send, and not before.
pub fn bookmarks_are_sent()
    ensures { BookmarksAreSent }
{}

/// After a restart nothing is published until a list was taken in.
pub fn restarts_begin_anew()
    ensures { RestartsBeginAnew }
{}

/// Lines of no form are refused, empty ones are skipped, and only the first may be a configuration.
pub fn lines_are_answered()
    ensures { LinesAreAnswered }
{}
