//! What keeps a copy of one kind up to date with a server: it lists, watches, takes in the bytes as they come, publishes, and asks again where a
//! watch was cut, has expired or cannot be read.
//!
//! What is published, of a kind in all namespaces, is the server's list at the revision beside it, and a sink is given each change once, in order:
//! proved of `Follower`, over lists, bytes, cuts and expiries, and of what `follow` tells its sink. The loop that asks and waits is thin, and tested.
//!
//! The shortest right use, as `watch_example` has it, which the gate runs:
//!
//! ```text
//! list_and_watch::follow(
//!     alloc,
//!     kind,
//!     &mut Follower::streaming(alloc, kind, PlainInformer::new(alloc)),
//!     &mut Remote::within(connector, scope),
//!     &mut WallClock::new(rt),
//!     &mut sink,
//! );
//! ```
//!
//! What not to do: a `Sink` returns promptly, as nothing of the watch is read meanwhile and a server leaves who does not read; where it runs out of
//! memory it takes none of the changes, or counts those that it took, as it is given the same again. After `other_server` nothing that was published
//! before says anything.
#![tactic(auto)]

pub(crate) mod answered;
mod causes;
pub(crate) mod doubts;
pub(crate) mod falling;
mod follower;
pub mod follower_laws;
pub(crate) mod listing;
mod onward;
pub(crate) mod owed;
mod pauses;
pub(crate) mod placed;
mod recognizing;
mod running;
pub(crate) mod sameness;
mod shown;
mod sinks;
pub(crate) mod tails;
mod timers;
pub mod tries;
pub(crate) mod watching;

pub use answered::is_refusal_of_streams;
pub use causes::Cause;
pub use follower::Follower;
pub use indexer::{Indexed, Shift};
pub use onward::Onward;
pub use pauses::Pauses;
pub use recognizing::{Recognized, is_refusal, recognize};
pub use running::follow;
pub use shown::shows_other_server;
pub use sinks::Sink;
pub use timers::Timer;
