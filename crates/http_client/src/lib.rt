//! One exchange of a client over a stream of HTTP/1.1: a request is written and its reply read whole, or a watch is opened and read in
//! pieces. No socket is opened here.
#![tactic(auto)]

mod answer;
mod body;
mod chunks;
mod exchange;
mod fault;
pub mod framing;
pub mod laws;
mod limit;
mod more;
mod opening;
pub mod outgoing;
pub mod patience;
mod reading;
mod reply;
pub mod reply_head;
pub mod statuses;
mod waits;
mod whole;

pub use answer::Answer;
pub use exchange::{call, send_and_read};
pub use fault::ReplyFault;
pub use framing::Framing;
pub use limit::LARGEST_BODY;
pub use more::{More, read_more};
pub use opening::{WatchAnswer, open_watch};
pub use outgoing::Outgoing;
pub use reply::{HttpReply, read_reply};
pub use reply_head::ReplyHead;
pub use waits::{milliseconds_asked, milliseconds_by};
pub use whole::read_whole;
