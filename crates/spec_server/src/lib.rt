//! What a server stores in the place of all that has happened, the present objects and a window of each kind, and what it
//! answers by these.
#![tactic(auto)]
