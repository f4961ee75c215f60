//! What controllers read of `spec` and `status`: members, numbers, `maxSurge` and `maxUnavailable`; whether two objects say the same.
//!
//! What is left out, or is of another type, reads as none, false or the empty text: that an object says it as it should is for `validate`
//! to see to, before it is stored. A comparison writes the texts of both. `replicaset` and `deployment` plan by these.
#![tactic(auto)]

mod copies;
pub mod digits;
pub mod parts;
mod values;

pub use copies::{blank, inner, says_the_same};
pub use parts::{in_spec, in_status, text_at, text_in, truth_at};
pub use values::amount;
