//! Informers whose maps are read without waiting: two copies take turns, and every reader sees a map that was published whole.
//!
//! A publish takes all deltas that wait, or none. A look shows a map that was published, no older than what its lister knew, and it stays as it is
//! while the look lasts; it waits for nobody and takes no memory. Of whose informer the map is no clause says.
//!
//! The shortest right use, as `controller_tests` has it (`lister_tests.rt`, `each_call_once`):
//!
//! ```text
//! let mut informer = Informer::open(alloc, 2)?;
//! let lister = informer.lister()?;
//! informer.append(delta)?;
//! let shifts = informer.publish(rt)?;
//! if let Ok(look) = lister.look() {
//!     let found = look.indexed().get(&key);
//!     let lister = look.leave();
//! }
//! informer.close(rt);
//! ```
//!
//! What not to do: to keep a look for long, as the next publish but one waits for its end (`Lister::copy` gives a copy that nobody waits for); to
//! leave an `Informer` without `close` (`SharedInformer` closes as it is dropped); to share a lister (each thread has its own, told of all that was
//! published when it was made).
#![tactic(auto)]

pub(crate) mod changes;
pub(crate) mod copies;
mod informers;
mod kind_listers;
mod listers;
pub(crate) mod published;
pub(crate) mod rules;
mod seen;
mod shared;
pub(crate) mod shared_deltas;
mod shared_informers;
pub(crate) mod views;

pub use indexer::{Indexed, Shift};
pub use informers::Informer;
pub use kind_listers::Listers;
pub use listers::{Lister, Look};
pub use plain_informer::{PlainInformer, Publishing};
pub use reconcile_types::{Command, Entry, Hand, Plan, Seen};
pub use shared::SharedInformer;
pub use shared_informers::{listers_of, open_informers};
