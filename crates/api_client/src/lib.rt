//! A server that is asked over connections, one for each request: the trait by which it is asked, and its client over anything that connects.
//!
//! What is written asks for just that request, or is refused as too large. What is told is what was read: a whole reply, that nothing was sent, or
//! that the request is lost, and then may have been carried out or not. A watch is open, expired or refused as the bytes say.
//!
//! The shortest right use, as `http_tests` has it (`remotes.rt`, `each_request_has_a_connection_of_its_own`, `a_watch_is_opened_or_refused`):
//!
//! ```text
//! let mut server = Remote::new(connector);
//! match server.call(alloc, &request) {
//!     Answer::Replied(reply) => ..,
//!     Answer::NotSent => ..,
//!     Answer::Lost => ..,
//! }
//! if server.open_watch(alloc, kind, revision) == Opened::Open {
//!     let more = server.more(&mut buf);
//! }
//! ```
//!
//! What not to do: to ask again after `Answer::Lost` as if nothing had been done; to take `More::Cut` for an end; to have two watches of one
//! `Remote`, as the second leaves the first. `list_and_watch` follows a kind over it, and `controller_runtime` a controller.
#![tactic(auto)]

mod api;
mod asking;
pub mod beginning;
mod connect;
pub mod laws;
mod limits;
mod opened;
pub mod outgoing;

pub use api::Api;
pub use asking::Remote;
pub use connect::Connect;
pub use limits::Limits;
pub use opened::Opened;
