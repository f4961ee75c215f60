//! Worked facts of reflectors whose stream is cut, expires, or says what can't be read.
ghost use Rattle.spec_examples.specs.CutExamples.{CutsDropParts, ExpiriesAskForLists, BookmarksAreReached, LongLinesEnd};

/// A frame that is cut in its middle gives nothing, and is given whole once it is sent again.
pub fn cuts_drop_parts()
    ensures { CutsDropParts }
{}

/// An error of 410 asks for a list, and one of another code can't be read.
pub fn expiries_ask_for_lists()
    ensures { ExpiriesAskForLists }
{}

/// A bookmark of the last revision or a later one is taken in; one of an earlier revision or of another kind can't be read.
pub fn bookmarks_are_reached()
    ensures { BookmarksAreReached }
{}

/// A line that is longer than a frame may be can't be read, even before its end has come.
pub fn long_lines_end()
    ensures { LongLinesEnd }
{}
