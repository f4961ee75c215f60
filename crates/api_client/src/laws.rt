//! What follows for a server that is asked over connections.
ghost use Rattle.api_client.specs.Laws.{CollectionsAreAsked, LongTargetsAreRefused, RequestsAreAsked};

/// What is written for a request of one object asks a server for that request, or is refused as its body is too large, and nothing else,
/// whatever follows it.
pub fn requests_are_asked()
    ensures { RequestsAreAsked }
{}

/// A request whose head is longer than a server reads, as by its name, is refused as too large.
pub fn long_targets_are_refused()
    ensures { LongTargetsAreRefused }
{}

/// What is written for a list, a page, a watch or a stream of a kind in a scope asks a server for that, and for nothing else, whatever follows
/// it, where its head is no longer than one may be.
pub fn collections_are_asked()
    ensures { CollectionsAreAsked }
{}
