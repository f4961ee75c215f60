//! `Key`, the kind, namespace and name of an object; `WorkKey`, which controller is to look at it; `PerKind`, what stands once for each kind; and
//! `Fault`, why a request is refused.
//!
//! Keys go by kind, then namespace, then name, the texts in byte order, as lists do. Two keys are equal just where all three are, and a copy is equal
//! to what it is of.
//!
//! The shortest right use, as `http_tests` has it (`remotes.rt`, `delete`):
//!
//! ```text
//! let key = Key {
//!     kind: Kind::Pod,
//!     namespace: String::from_str(alloc, "a")?,
//!     name: String::from_str(alloc, name)?,
//! };
//! ```
//!
//! What not to do: to take a key for one that an object can have, as it may have any texts (`metadata_values` says whether a namespace and a name can
//! be called so); to take `Fault::NoMemory` for a refusal: what it ends may be asked again as it is. `reply` has a code and a text for each fault.
#![tactic(auto)]

mod fault;
mod key;
mod per_kind;
mod work_key;

pub use fault::Fault;
pub use key::Key;
pub use per_kind::PerKind;
pub use work_key::WorkKey;
