//! What becomes of requests.
use sim_steps::Delivery;

/// What becomes of a request that a worker makes.
#[derive(Clone, Copy)]
pub enum Fate {
    /// It reaches the server or not, and what it is answered comes back or not.
    Sent(Delivery),
    /// It is refused with this status code, as by a proxy, before the server has it.
    Refused(u16),
}
