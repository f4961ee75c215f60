//! The trait `Site`, what connections ask of a server; what is written for what was asked; and `serve_one`: one connection served alone, as tests
//! do.
//!
//! `serve_one` has no limit of time: a peer that is silent is given up by the reader and the writer that the caller brings. Who never waits
//! takes `respond_to`, and writes what it gives piece by piece, as `http_connection` does. `Solo` is the site of one thread, with which
//! `http_tests` calls `serve_one`; `desk::Seat` is that of many.
#![tactic(auto)]

pub mod alone;
mod delivering;
mod fault;
mod list_replies;
mod one_request;
mod replying;
mod responding;
mod response;
mod served;
mod site;
mod solo;

pub use fault::ServeFault;
pub use list_replies::ListReply;
pub use one_request::serve_one;
pub use replying::refusal_text;
pub use responding::{respond, respond_to};
pub use response::{OpenWatch, Response, Text};
pub use served::Served;
pub use site::Site;
pub use solo::Solo;
