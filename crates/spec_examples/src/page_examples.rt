//! Worked facts of pages, which the checker computes from the definitions.
ghost use Rattle.spec_examples.specs.PageExamples.{FiveByTwo, PlacesNeedNoObject, TokensAreWritten};

/// How a list is cut into pages.
pub fn lists_are_cut()
    // Five objects by two: two pages of two, each with its next, and one of one without.
    ensures five_by_two { FiveByTwo }
    // Without a limit all come at once; and after a name that is no longer there, those that follow it.
    ensures places_need_no_object { PlacesNeedNoObject }
    // The token after the second of them, as other programs write it.
    ensures tokens_are_written { TokensAreWritten }
{}
