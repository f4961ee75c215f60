//! Laws of no overshoot: over every list of steps that lets it alone, a ReplicaSet never has more active ones, at one moment, of the pods that its
//! controller made for it than it ever was to have.
#![tactic(auto)]

pub mod bound_laws;
pub mod claim_laws;
pub mod command_laws;
pub mod kind_laws;
pub mod made_pods;
pub mod new_pod_laws;
pub mod overshoot;
pub mod overshoot_examples;
pub mod reserve_laws;
pub mod set_laws;
pub mod show_laws;
pub mod step_laws;
pub mod stock_laws;
pub mod turn_laws;
