//! Indexed copies: the objects of a kind, as deltas make them, by key, by namespace and by owner, with the revision at which
//! they are the server's.
#![tactic(auto)]

pub(crate) mod finding;
mod indexed;
pub(crate) mod links;
pub(crate) mod objects;
pub(crate) mod putting;
mod seen;
pub mod shifts;

pub use indexed::Indexed;
pub use reflector::SharedObject;
pub use shifts::Shift;
