//! `Request`, and how the parts of a request are read: a path, by the table of routes, a line, a query, a body.
//!
//! A part that can be read says nothing of the others: their order, by which a request has one first refusal, `request_decoding` keeps, and
//! `http_request_reader` where the body comes later. No part of a path is decoded. `Routes` takes memory, and is made once for all
//! requests.
#![tactic(auto)]

pub mod body;
pub mod check;
pub mod collections;
pub mod entries;
pub mod faults;
pub mod laws;
pub mod line;
pub mod list_options;
pub(crate) mod members;
pub mod query;
mod request;
pub mod table;
pub mod targets;
pub mod watch_options;
pub(crate) mod watch_starts;

pub use request::Request;
