//! Bodies in chunks, as HTTP/1.1 has them: written, and read in any pieces. What is read and written through is watched, so
//! that who uses it knows whether a call of it has failed.
#![tactic(auto)]

mod fault;
pub mod laws;
mod line;
pub mod place;
mod reader;
mod watched;
mod writer;

pub use fault::ChunkFault;
pub use reader::Reader;
pub use watched::Watched;
pub use writer::{Writer, push_chunk};
