//! A server that threads share. Each thread has a pass, and each call of a pass is answered at one point of one history of all
//! calls: the server is taken, makes one step, and is given back. A seat has a pass with what else a thread needs.
#![tactic(auto)]

mod askings;
mod calls;
mod compactions;
mod desks;
pub mod entries;
mod listeners;
mod reads;
mod seat_calls;
mod seats;
pub mod served;
mod steps;
mod store_law;
pub mod store_laws;

pub use askings::{Anything, Asking, Readable};
pub use desks::{Desk, StorePass};
pub use listeners::{Listener, Silent};
pub use seats::Seat;
pub use server::Server;
pub use store_law::StoreLaw;
