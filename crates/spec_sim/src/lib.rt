//! A simulated cluster and its control plane, as mathematics: a server, and for each kind a link to it, a reflector and an informer;
//! beside them the controller manager, whose workers look, read, and issue the commands of their plans; one step after another; and the
//! lines by which steps are asked for and told.
#![tactic(auto)]

pub mod initial_syncs;
