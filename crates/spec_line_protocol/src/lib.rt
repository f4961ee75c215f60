//! What request lines ask, and the reply lines that are written for them.
#![tactic(auto)]
