//! What `kcp serve`, `kcp control` and `kcp all` run: a server that threads share, the controllers at a server, and both in one.
#![tactic(auto)]

mod all_together;
mod controlling;
pub mod ground;
mod made;
pub mod own_desk;
pub mod parts;
pub mod serving_threads;

pub use all_together::{AllFault, all};
pub use controlling::control;
pub use serving_threads::serve;
