//! Creates: generated names, and the metadata and first status that the server gives a new object.
//!
//! Nothing is written here: whoever asks applies the write before the next request, or a name may be made twice. A made name may be taken,
//! where each of the few that are tried is: the client is told so, and may ask again. `conformance/cases` has creates.
#![tactic(auto)]

pub mod create;
pub mod made_names;
mod making;

pub use making::{created, with_first_status};
