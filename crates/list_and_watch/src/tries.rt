//! What came of a try.
ghost use Rattle.std.specs.Prelude.{◌≡◌};
ghost use Rattle.list_and_watch.specs.Answered.{leaves_doubt, piece_of, tried_after};

use spec_client_go::reflectors::End;

/// A watch that ends within so many milliseconds and gave nothing is a failed try.
const SHORT_MILLISECONDS: u64 = 1_000;

/// What came of a list or a watch.
#[derive(Clone, Copy)]
pub enum Tried {
    /// It gave something: the next is tried at once.
    Done,
    /// It failed: the next is tried after a pause.
    Failed,
    /// The follower is to stop.
    Stopped,
}

/// What came of what was asked.
#[derive(Clone, Copy)]
pub(crate) struct Outcome {
    pub(crate) tried: Tried,
    /// Whether it may be another server that is asked next.
    pub(crate) is_in_doubt: bool,
    /// For how many milliseconds the server asks to be left alone.
    pub(crate) milliseconds: u32,
}

/// What came of a piece of a watch.
#[derive(Clone, Copy)]
pub enum Piece {
    /// It was taken in, and the watch goes on.
    GoesOn,
    /// The watch has expired.
    Expired,
    /// It is not what may stand there.
    Unreadable,
    /// There was no memory to take it in.
    Dropped,
}

impl Piece {
    /// Returns what came of a piece that was taken in, by why the watch is over, if it is.
    pub(crate) fn of_end(end: Option<End>) -> Piece
        ensures { result ≡ piece_of end }
    {
        match end {
            None => Piece::GoesOn,
            Some(End::Expired) => Piece::Expired,
            Some(End::Unreadable) => Piece::Unreadable,
        }
    }
}

/// Why a watch that was open is left.
#[derive(Clone, Copy)]
pub enum Left {
    /// The server ended it, and it gave something or not.
    Ended(bool),
    /// It was cut, and it gave something or not.
    Cut(bool),
    /// It has expired.
    Expired,
    /// What came could not be taken in or given on.
    Failed,
    /// The follower is to stop.
    Stopped,
}

impl Left {
    /// Returns what came of a watch that was open for so many milliseconds: one that ends within a second and gave nothing is a failed try.
    pub(crate) fn tried_after(self, milliseconds: u64) -> Tried
        ensures { result ≡ tried_after self milliseconds }
    {
        match self {
            Left::Ended(true) | Left::Cut(true) => Tried::Done,
            Left::Ended(false) | Left::Cut(false) => {
                if milliseconds < SHORT_MILLISECONDS {
                    Tried::Failed
                } else {
                    Tried::Done
                }
            }
            Left::Expired | Left::Failed => Tried::Failed,
            Left::Stopped => Tried::Stopped,
        }
    }

    /// Returns whether it may be another server that is asked next: the watch did not end as servers end one.
    pub(crate) fn leaves_doubt(self) -> bool
        ensures { result ≡ leaves_doubt self }
    {
        match self {
            Left::Cut(_) | Left::Failed => true,
            Left::Ended(_) | Left::Expired | Left::Stopped => false,
        }
    }
}
