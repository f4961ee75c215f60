//! What a connection asks.
use object_keys::Fault;
use request_decoding::Asked;

/// What a peer asks over a connection.
#[derive(Drop)]
pub enum Received {
    /// A request that is whole, as its method, its target and its body have it.
    Asked(Asked),
    /// A request that is refused, and why: by its head, or by what its body says.
    Refused(Fault),
    /// Nothing: the peer ended before its request was whole.
    Ended,
}
