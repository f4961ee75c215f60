//! A work queue, delays and failures of keys of any type: keys that wait for a worker, each once, and keys in workers' hands; which
//! keys come due at which moment, and delays that grow with each failure; what a key has to be, and that texts, keys of objects and
//! work keys are. With laws of these, and that at work keys they are those that controllers work by.
#![tactic(auto)]

mod alarm;
mod backoff;
pub mod delay_laws;
mod delays;
pub mod failure_laws;
mod named;
mod queue;
pub mod queue_laws;
mod text;
mod work;
pub mod work_laws;

pub use backoff::KeyedBackoff;
pub use delays::KeyedDelays;
pub use named::Named;
pub use queue::KeyedQueue;
