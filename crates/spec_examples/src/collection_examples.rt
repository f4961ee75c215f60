//! Worked facts of the queries of collections, which the checker computes from the definitions.
ghost use Rattle.spec_examples.specs.CollectionExamples.{TokensGoOn, VersionsAreMatched, WatchesAreAsked};

/// What the query of a collection asks.
pub fn queries_are_read()
    // At which revision a list is, by what its query says of revisions, matches and limits.
    ensures versions_are_matched { VersionsAreMatched }
    // A list that goes on after a page, and texts that are no tokens.
    ensures tokens_go_on { TokensGoOn }
    // What a watch's query says, and what of it is not looked at.
    ensures watches_are_asked { WatchesAreAsked }
{}
