//! Looks are server lists, writes replace the version that they name, and the garbage collector spares what has a live owner, whatever
//! steps are taken.
//!
//! They are laws of the definitions, which `world` meets, so that its contracts have them. They say of what is done that it is right, and
//! never that something is done in the end: that is up to the steps.
#![tactic(auto)]

pub mod plane_laws;
pub mod sparing_laws;
