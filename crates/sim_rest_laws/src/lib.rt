//! Laws of what is left to do: keys that wait, turns from their take to their end, changes between what was published, and the last
//! turn of each key of a control plane that is at rest, whatever steps are taken.
#![tactic(auto)]

pub mod kept_key_laws;
pub mod last_turn_laws;
pub mod owed_object_laws;
pub mod shift_run_laws;
pub mod start_laws;
pub mod still_laws;
pub mod turn_run_laws;
pub mod whole_laws;
