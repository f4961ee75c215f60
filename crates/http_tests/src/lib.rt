//! Tests of lines, of HTTP/1.1 and of its clients over memory: devices that fail or are interrupted at each call, pieces of any size and cut
//! anywhere, input that no runner of cases can give, and a follower whose server and clock play a script.
#![tactic(auto)]

#[cfg(test)]
mod calls;
#[cfg(test)]
mod chunk_reading;
#[cfg(test)]
mod chunk_writing;
#[cfg(test)]
mod doubts;
#[cfg(test)]
mod followers;
#[cfg(test)]
mod heads;
#[cfg(test)]
mod initial_streams;
#[cfg(test)]
mod line_runs;
#[cfg(test)]
mod receiving;
#[cfg(test)]
mod remotes;
#[cfg(test)]
mod replies;
#[cfg(test)]
mod scenes;
#[cfg(test)]
mod scripts;
#[cfg(test)]
mod serving;
#[cfg(test)]
mod sites;
#[cfg(test)]
mod stepping;
#[cfg(test)]
mod steps;
#[cfg(test)]
mod streams;
#[cfg(test)]
mod watches;
