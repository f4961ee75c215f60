//! Worked facts of pages, compactions, bookmarks and windows, which the checker computes from the definitions.
ghost use Rattle.spec_examples.specs.ServingExamples.{BookmarksAreShown, PagesGoOn, WindowsForget};

/// Whole replays of pages, watches and compactions.
pub fn lines_are_served()
    // Pages of a list, an object of which is deleted between them, until what happened is compacted.
    ensures pages_go_on { PagesGoOn }
    // Watches with bookmarks, from a revision, from the present one, and from what is there.
    ensures bookmarks_are_shown { BookmarksAreShown }
    // Revisions from below the floor to above the present one.
    ensures windows_forget { WindowsForget }
{}
