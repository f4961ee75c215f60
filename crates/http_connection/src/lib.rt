//! A connection of HTTP/1.1 whose bytes come and go as they may: where it stands, and its steps, none of which waits. Who holds many
//! connections lets each go on when its peer sends or takes, or when what it watches changes.
#![tactic(auto)]

mod answering;
mod arriving;
mod ending;
pub mod list_sending;
mod listing;
mod looking;
mod noted;
mod phase;
mod receiving;
mod replying;
pub mod sending;
mod turning;
mod watching;

pub use answering::{answer, answered};
pub use arriving::{Arriving, Awaited};
pub use ending::end_watch;
pub use listing::Listing;
pub use looking::look_on;
pub use noted::Noted;
pub use phase::ConnectionPhase;
pub use receiving::arrived;
pub use replying::Replying;
pub use turning::turn;
pub use watching::{MOST_UNWRITTEN, Watching};
