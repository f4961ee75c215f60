//! Laws of the first commands of plans: where all else has come to rest, what they write owes the key of their turn.
#![tactic(auto)]

pub mod command_laws;
