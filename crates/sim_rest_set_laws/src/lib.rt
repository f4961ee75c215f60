//! Laws of the first commands of ReplicaSets' plans: where all else has come to rest, they owe the key of their turn.
#![tactic(auto)]

pub mod set_laws;
