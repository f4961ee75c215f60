//! A request read from a connection, or why it is refused: by its path, method, query, length and media type before its body is read.
//!
//! After a fault or a refusal no other request is to be read from the connection: a part of this one may be lost, or still to come.
//! `api::serve_one` reads by `receive`, which waits; `http_connection` by `look_at`, of what has come so far.
#![tactic(auto)]

mod answered;
mod arrived;
pub mod body;
mod checks;
mod opening;
mod reading;
mod received;
mod requests;

pub use arrived::Arrived;
pub use checks::check_head;
pub use opening::CheckedHead;
pub use reading::receive;
pub use received::Received;
pub use requests::look_at;
