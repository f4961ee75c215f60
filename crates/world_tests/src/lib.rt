//! Tests of the simulator: a random run of a cluster, each published map of which is compared with the server's list, and worked examples that a
//! world takes at once, as lists of steps; a rollout and its collection at once and step by step.
#![tactic(auto)]

#[cfg(test)]
mod random_tests;
#[cfg(test)]
mod rollout_tests;
#[cfg(test)]
mod run_tests;
