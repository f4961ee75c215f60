//! Tests of what authors of controllers write: a reconcile against a server that plays a script, and the requests that most make.
#![tactic(auto)]

#[cfg(test)]
mod assertions;
#[cfg(test)]
mod declared_tests;
#[cfg(test)]
mod finalizer_tests;
#[cfg(test)]
mod mirror_tests;
#[cfg(test)]
mod scenes;
#[cfg(test)]
mod telling_tests;
#[cfg(test)]
mod watch_tests;
