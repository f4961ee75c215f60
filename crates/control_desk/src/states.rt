//! What lies on a desk of work.
use object_keys::PerKind;
use work_board::Board;

/// A board, and for each kind the highest revision up to which what is published of it was handled.
pub struct WorkState {
    pub board: Board,
    pub handled: PerKind<u64>,
}

impl Drop for WorkState {
    // Called where one is dropped; a derived drop is proved anew at each such place.
    fn drop(self) {
        let WorkState {
            board: _board,
            handled: _handled,
        } = self;
    }
}
