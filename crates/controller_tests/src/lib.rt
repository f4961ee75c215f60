//! Tests of what controllers work by, and of their plans: queues, delays and failures, of keys of any type too, expectations; shared maps, indexed
//! copies, what is published, the keys that a change owes, and maps that are read without waiting.
#![tactic(auto)]

#[cfg(test)]
mod assertions;
#[cfg(test)]
mod backoff_tests;
#[cfg(test)]
mod board_tests;
#[cfg(test)]
mod collector_tests;
#[cfg(test)]
mod deployment_tests;
#[cfg(test)]
mod expectations_tests;
#[cfg(test)]
mod fixtures;
#[cfg(test)]
mod hands;
#[cfg(test)]
mod indexer_tests;
#[cfg(test)]
mod informer_tests;
#[cfg(test)]
mod keyed_backoff_tests;
#[cfg(test)]
mod keyed_delays_tests;
#[cfg(test)]
mod keyed_queue_tests;
#[cfg(test)]
mod lister_tests;
#[cfg(test)]
mod looking_tests;
#[cfg(test)]
mod owed_tests;
#[cfg(test)]
mod replica_set_tests;
#[cfg(test)]
mod shared_map_tests;
#[cfg(test)]
mod waiting_tests;
#[cfg(test)]
mod workqueue_tests;
#[cfg(test)]
mod written;
