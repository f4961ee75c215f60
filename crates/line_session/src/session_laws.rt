//! Laws of sessions.
ghost use Rattle.line_session.specs.Laws.{SessionsFollow};

/// Who sends lines to a session is answered, line by line, as if all that has ever happened were at hand, though the session
/// keeps no more than its window.
pub fn sessions_follow()
    ensures { SessionsFollow }
{}
