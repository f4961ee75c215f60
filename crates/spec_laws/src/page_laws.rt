//! Laws of pages.
ghost use Rattle.spec_laws.specs.PageLaws.{ListsAreInPlace, PagesAreLists, PagesHaveLimits, RemaindersAddUp, PagesEnd, NextsAreLast, TokensAreDistinct, TokensAreRead};

/// The list of a view goes by namespace, then name.
pub fn lists_are_in_place()
    ensures { ListsAreInPlace }
{}

/// Pages of a list, each but the first asked for by the place where the one before it ended, joined, are the list.
pub fn pages_are_lists()
    ensures { PagesAreLists }
{}

/// A page has no more objects than its limit.
pub fn pages_have_limits()
    ensures { PagesHaveLimits }
{}

/// What a page has, and what remains after it, is all that comes after the place that it was asked for by.
pub fn remainders_add_up()
    ensures { RemaindersAddUp }
{}

/// After a page that has no next, nothing remains.
pub fn pages_end()
    ensures { PagesEnd }
{}

/// The next page begins after the last object of this one, if anything remains.
pub fn nexts_are_last()
    ensures { NextsAreLast }
{}

/// A text is the text of one token at most.
pub fn tokens_are_distinct()
    ensures { TokensAreDistinct }
{}

/// A text is read as a token just if it is that token's text.
pub fn tokens_are_read()
    ensures { TokensAreRead }
{}
