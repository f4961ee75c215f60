//! Method, target and body of a request, as a client sends them; `Scope`, a namespace and a selector, and the targets of its lists, pages,
//! watches and streams.
//!
//! A body that is longer than a server reads has its text too, and the server refuses it. What else a head has, as its host and the length
//! of the body, `http_client` writes. `api_client` asks by these texts, of which `watch_example` takes a `Scope`.
#![tactic(auto)]

pub mod asking;
pub(crate) mod checks;
mod collection_targets;
pub mod deletes;
mod faults;
pub mod laws;
pub(crate) mod queries;
mod scopes;
pub mod targets;
pub mod telling;
mod text;

pub use asking::request_text;
pub use collection_targets::{list_target, page_target, stream_target, watch_target};
pub use faults::ScopeFault;
pub use scopes::Scope;
pub use telling::can_be_told;
pub use text::RequestText;
