//! A list that is being written.
ghost use Rattle.std.specs.Prelude.{◌≡◌, drop, length};

use api::ListReply;

/// A list that is being written, as it is made.
#[derive(Drop)]
pub struct Listing {
    /// What is being written.
    pub out: Vec<u8>,
    /// How many of these bytes were written.
    pub taken: usize,
    /// What is still to be made of the reply. It is to be written after these.
    pub rest: ListReply,
    /// How many pieces of it were made: each only once all before it was written.
    pub pieces: usize,
    /// Whether it stopped so that others go on meanwhile: its peer may take more at once.
    pub is_paused: bool,
}

impl Listing {
    /// Returns how many bytes that are made are still to be written.
    pub fn left(&self) -> usize
        ensures { result ≡ length (drop self.now.taken self.now.out.items) }
    {
        self.out.len().saturating_sub(self.taken)
    }
}
