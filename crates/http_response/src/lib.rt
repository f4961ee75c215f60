//! The bytes of what is answered over HTTP/1.1: replies, each in one buffer, what is always the same, and the frames of watches
//! as chunks.
#![tactic(auto)]

mod constants;
mod frames;
mod heads;
mod replies;
mod sending;

pub use constants::{last_chunk, out_of_memory, watch_head};
pub use frames::{push_bookmark, push_changes, push_closing, push_error, push_objects};
pub use heads::reply_head;
pub use replies::{refusal, response};
pub use sending::send_response;
