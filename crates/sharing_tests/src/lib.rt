//! Tests of what threads share: batons, bells, a board and a desk.
#![tactic(auto)]

#[cfg(test)]
mod baton_tests;
#[cfg(test)]
mod bell_tests;
#[cfg(test)]
mod board_tests;
#[cfg(test)]
mod counters;
#[cfg(test)]
mod creating;
#[cfg(test)]
mod desk_tests;
#[cfg(test)]
mod working;
