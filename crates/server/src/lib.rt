//! The server's pure part: what is there, with the last changes of each kind beside it, and what is answered by these. It knows no thread, no clock
//! and no connection; whoever holds it decides who may use it when.
//!
//! Each answer is what the definitions say of all that has happened, though only what is there and a window of changes is stored: what that no longer
//! has is refused as expired. A refusal, and running out of memory, change nothing. A page of a list of what was there at a moment is found at once,
//! and its text made piece by piece.
//!
//! The shortest right use, as `api` has it for a connection that is served alone (`alone.rt`), and `line_session` for lines, which makes the reply
//! line before anything is written (`sessions.rt`):
//!
//! ```text
//! let reply = server.serve(alloc, request, moment)?;
//!
//! let (reply, write) = server.answer(alloc, request, moment)?;
//! server.take(write)?;
//! ```
//!
//! What not to do: to let another write come between `answer` and `take`; to make a list's text while others wait for the server (`page`, give the
//! server back, then `opened`); to share it under a mutex, of which contracts know nothing: `desk` shares it, and keeps its history.
#![tactic(auto)]

mod compacting;
pub mod ends;
mod initials;
mod items;
mod list_pages;
mod list_texts;
mod listing;
pub mod next_pages;
mod paging;
mod servers;
mod serving;
pub mod shared_pages;
mod undoing;
mod watching;

pub use initials::InitialEvents;
pub use list_pages::ListPage;
pub use list_texts::ListText;
pub use paging::opened;
pub use servers::Server;
