//! What is said over a connection of HTTP/1.1: when a request is whole, what it asks or why it is refused, and the bytes of what is
//! answered; the bytes of a request as a client writes it, and what the bytes of an answer say to it. Definitions, with the laws that
//! follow from them, as that each end reads what the other writes as just that, and single cases that the checker computes.
#![tactic(auto)]

pub mod connection_examples;
pub mod connection_laws;
pub mod head_examples;
pub mod reply_examples;
pub mod reply_laws;
mod request;
pub mod request_laws;

pub use request::request_head;
