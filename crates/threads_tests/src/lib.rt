//! Tests of the controllers in threads, with the environment that they run in: a server of the same process, gates at which a worker waits, and
//! scenarios, which say what a client does meanwhile.
#![tactic(auto)]

#[cfg(test)]
mod adopting;
#[cfg(test)]
mod adopting_tests;
#[cfg(test)]
mod beside;
#[cfg(test)]
mod beside_tests;
#[cfg(test)]
mod clients;
#[cfg(test)]
mod counting;
#[cfg(test)]
mod counting_tests;
#[cfg(test)]
mod environments;
#[cfg(test)]
mod fake_clocks;
#[cfg(test)]
mod halting;
#[cfg(test)]
mod labelling;
#[cfg(test)]
mod labelling_tests;
#[cfg(test)]
mod objects;
#[cfg(test)]
mod polling;
#[cfg(test)]
mod ringers;
#[cfg(test)]
mod running;
#[cfg(test)]
mod scenarios;
#[cfg(test)]
mod scenes;
#[cfg(test)]
mod servers;
#[cfg(test)]
mod vanishing;
#[cfg(test)]
mod vanishing_tests;
#[cfg(test)]
mod waiting;
#[cfg(test)]
mod watches;
