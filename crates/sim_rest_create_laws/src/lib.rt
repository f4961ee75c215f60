//! Laws of creates by controllers: where all else has come to rest, what they make owes the key of their turn.
#![tactic(auto)]

pub mod create_laws;
