//! `World`: the simulator, whose contracts are the headline promises.
//!
//! The promises are of the steps that are taken, and of what has come of them: none says that all comes to rest, only that what is declared is there
//! where it has, nor what the threads of `kcp control` do. A step for which there is no memory changes nothing.
//!
//! The shortest right use, as `world_tests` has it (`run_tests.rt`, `two_pods_are_created`):
//!
//! ```text
//! let mut world = World::open(alloc, config)?;
//! world.run(alloc, steps)?;
//! let journal = world.journal();
//! ```
//!
//! What not to do: to take a step that was not open (`Outcome`) for one that did something; to go on with a list of steps after an error from its
//! beginning, as `Stopped` says how many were taken. `sim_service` takes a step for each line, as `kcp simulate` does.
#![tactic(auto)]

mod outcomes;
mod stored_worlds;
mod traces;
mod worlds;

pub use outcomes::Outcome;
pub use sim_cluster::Stopped;
pub use sim_manager::Issued;
pub use sim_steps::{Action, Config, Delivery, InitialSync, Move, PlaneStep, Step};
pub use traces::Trace;
pub use worlds::World;
