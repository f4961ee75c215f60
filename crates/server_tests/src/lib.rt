//! Tests of texts and objects, of what a server keeps and of the frames of its watches, on input that no line of a request and no simulated step
//! can give: revisions and clusters of any size, values that nest deeper than a body, and how an object is laid out; and of loops that
//! answer connections side by side.
#![tactic(auto)]

#[cfg(test)]
mod frames;
#[cfg(test)]
mod journals;
#[cfg(test)]
mod kinds;
#[cfg(test)]
mod reflectors;
#[cfg(test)]
mod serving;
#[cfg(test)]
mod stored_objects;
#[cfg(test)]
mod uids;
