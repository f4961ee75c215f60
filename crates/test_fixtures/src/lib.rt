//! Keys and objects for tests; readers and writers over memory, which give and take a few bytes a call, and fail at one of their calls.
#![tactic(auto)]

mod objects;
mod sink;
mod source;

pub use objects::{key, object, stored};
pub use sink::TestSink;
pub use source::Source;
