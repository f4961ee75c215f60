//! What is to be written over a connection.
use crate::list_replies::ListReply;
use http_watch::WatchStart;
use reply::Reply;
use selector::View;

/// A whole reply.
#[derive(Drop)]
pub enum Text {
    /// Its bytes.
    Whole(Vec<u8>),
    /// Its code and its body, where there was no memory for its bytes.
    Parts(Reply),
    /// That memory ran out, which takes none to say.
    OutOfMemory,
}

/// A watch that has opened.
#[derive(Drop)]
pub struct OpenWatch {
    /// What it shows.
    pub view: View,
    /// Whether bookmarks are shown.
    pub bookmarks: bool,
    /// What it opens with, and where it then stands.
    pub opened: WatchStart,
}

/// What is to be written over a connection for what was received of it.
#[derive(Drop)]
pub enum Response {
    /// Nothing, since nothing was asked.
    Nothing,
    /// A reply, and nothing else.
    Reply(Text),
    /// The reply with a list, which is made as it is written.
    List(ListReply),
    /// What a watch opens with, and then the frames of its looks.
    Watch(OpenWatch),
}
