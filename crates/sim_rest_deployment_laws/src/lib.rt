//! Laws of first commands of Deployments: where all else has come to rest, what they write owes the key of their turn.
#![tactic(auto)]

pub mod deployment_laws;
