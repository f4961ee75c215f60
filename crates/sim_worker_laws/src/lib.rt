//! Laws of the simulated control plane: what workers have in their hands and issue, what changes owe, and what each step does,
//! whatever steps are taken.
#![tactic(auto)]

pub mod action_laws;
pub mod issued_laws;
pub mod look_laws;
pub mod owed_laws;
pub mod step_laws;
pub mod take_laws;
pub mod turn_laws;
