//! What becomes of a request.
use reply::Reply;

/// The reply to a request, and whether the request wrote something.
#[derive(Drop)]
pub struct ServedReply {
    pub reply: Reply,
    pub wrote: bool,
}
