//! What a client is told where its request is refused, or where a success answers no object: a code, and a Status as
//! compact JSON.
#![tactic(auto)]

mod messages;
mod reply;
mod statuses;

pub use messages::message;
pub use reply::Reply;
pub use statuses::{body, code, success_text, text};
