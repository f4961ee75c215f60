//! Heads of requests over HTTP/1.1, read from a connection in any pieces, and what counts of them: a method, a target, and
//! fields by their names.
#![tactic(auto)]

pub mod body_length;
mod fault;
pub mod field;
mod field_lines;
mod found;
pub mod laws;
pub mod media_type;
pub mod method;
pub mod reading;
pub mod request_head;

pub use body_length::BodyLength;
pub use fault::ReadFault;
pub use field::HeaderField;
pub use found::FoundHead;
pub use request_head::RequestHead;
