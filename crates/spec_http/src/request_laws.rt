//! What follows for a server that is asked by what a client writes.
ghost use Rattle.spec_http.specs.RequestLaws.{CutRequestsAskNothing, LongRequestsAreRefused, WrittenRequestsAreRead};

/// What a client writes for a request asks a server for that method, target and body, and for nothing else, whatever follows it.
pub fn written_requests_are_read()
    ensures { WrittenRequestsAreRead }
{}

/// A request whose head is longer than a server reads is refused as too large.
pub fn long_requests_are_refused()
    ensures { LongRequestsAreRefused }
{}

/// A request that a server would answer asks nothing where it is cut, wherever that is.
pub fn cut_requests_ask_nothing()
    ensures { CutRequestsAskNothing }
{}
