//! What follows for who reads heads.
ghost use Rattle.http_request_head.specs.Laws.{FoundHeadsAsk};

/// What is found in the bytes that were read settles what a connection asks, whatever follows them.
pub fn found_heads_ask()
    ensures { FoundHeadsAsk }
{}
