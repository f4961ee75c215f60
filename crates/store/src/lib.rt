//! The objects that are there, and the present revision; how many there may be.
#![tactic(auto)]

mod chunks;
mod limits;
mod members;
mod objects;
mod page_snapshots;
mod past_snapshots;
mod ranges;
mod snapshots;
mod stores;

pub use chunks::Chunk;
pub use limits::MOST_OBJECTS;
pub use members::MembersLeft;
pub use page_snapshots::PageSnapshot;
pub use past_snapshots::PastSnapshot;
pub use snapshots::ViewSnapshot;
pub use stores::Store;
