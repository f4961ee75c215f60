//! Laws of boards.
ghost use Rattle.work_board.specs.DueLaws.{DueIsTold};
ghost use Rattle.work_board.specs.Later.{WaitsForItsDelay};

/// A key that is to wait for no longer than its delay is given back as any key that failed.
pub fn waits_for_its_delay()
    ensures { WaitsForItsDelay }
{}

/// Nothing comes due before the milliseconds have passed that a board tells, and then something does; where it tells none, no key is
/// delayed.
pub fn due_is_told()
    ensures { DueIsTold }
{}
