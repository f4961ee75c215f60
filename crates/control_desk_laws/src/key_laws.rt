//! What becomes of keys.
ghost use Rattle.control_desk_laws.specs.Remembered.{NothingIsForgotten};

/// A key that a change owes, or that was given back to be tried again, is queued, delayed, or in somebody's hands and waits again when it
/// is given back; or it was taken since.
pub fn nothing_is_forgotten()
    ensures { NothingIsForgotten }
{}
