//! A watch that is being written.
ghost use Rattle.std.specs.Prelude.{◌≡◌, ◌≤◌, ◌+◌, length, nat_lt, true};
ghost use Rattle.http_connection.specs.Watches.{made, most_unwritten, unwritten};

use http_watch::{FirstFrames, WatchStanding};
use selector::View;

/// How many bytes of the frames of a watch may be left unwritten, beside as many as one look gave. A watch whose peer leaves more is left.
pub const MOST_UNWRITTEN: usize = 4_194_304;

/// A watch that is being written.
#[derive(Drop)]
pub struct Watching {
    /// What it shows.
    pub view: View,
    /// Whether bookmarks are shown.
    pub bookmarks: bool,
    /// Where it stands: nowhere once it is over.
    pub at: Option<WatchStanding>,
    /// The most bytes that were made at once, as it opened or by one look. So many may be left unwritten beside others: a peer that takes all
    /// that comes is not to be left for what came at once.
    pub at_once: usize,
    /// What is being written.
    pub out: Vec<u8>,
    /// How many of these bytes were written.
    pub taken: usize,
    /// What it opened with and is still to be made. It is to be written after these.
    pub rest: FirstFrames,
    /// How many pieces of that were made: each only once all before it was written.
    pub pieces: usize,
    /// What is to be written after all of that: the frames of its looks, and its end.
    pub later: Vec<u8>,
    /// Whether it stopped so that others go on meanwhile: its peer may take more at once.
    pub is_paused: bool,
}

impl Watching {
    /// Returns how many bytes that are made are still to be written.
    pub fn left(&self) -> usize
        ensures { result ≡ length (made self.now) }
    {
        self.out.len().saturating_sub(self.taken) + self.later.len()
    }

    /// Returns whether bytes are still to be written, made or not.
    pub fn has_more(&self) -> bool
        ensures { result ≡ nat_lt 0 (length (unwritten self.now)) }
    {
        self.left() > 0 || self.rest.has_more()
    }

    /// Returns whether so many bytes may be left unwritten, and so many more.
    pub(crate) fn has_room(&self, left: usize, more: usize) -> bool
        ensures { result ≡ true → left + more ≤ self.now.at_once + most_unwritten }
    {
        let most = self.at_once.saturating_add(MOST_UNWRITTEN);
        left <= most && more <= most - left
    }
}
