//! Laws of what workers do.
ghost use Rattle.sim_worker_laws.specs.ActionLaws.{IssuesAreTied, OnlyIssuesAsk, LostIsNotDropped, LiveReadsFindWhatIsThere, AnswersAreTheBoards, LostMayBeDone, UndoneIsExpectedNoMore, FailedKeysWait};

/// A command that is issued is added, with its answer, to all that were issued; the server is asked its request, unless it is
/// dropped; and its answer is told.
pub fn issues_are_tied()
    ensures { IssuesAreTied }
{}

/// No other action adds to what was issued, and none asks anything else of the server.
pub fn only_issues_ask()
    ensures { OnlyIssuesAsk }
{}

/// A command whose answer is lost is served, one that is dropped is not, and of either the worker learns nothing.
pub fn lost_is_not_dropped()
    ensures { LostIsNotDropped }
{}

/// A live read finds what is there at the present revision.
pub fn live_reads_find_what_is_there()
    ensures { LiveReadsFindWhatIsThere }
{}

/// Whether all pods that were expected have been seen is answered by the board; of a ReplicaSet that is not there, all that was
/// expected is forgotten, and the answer is yes.
pub fn answers_are_the_boards()
    ensures { AnswersAreTheBoards }
{}

/// A refused command is not done, and neither are those that were not issued; one whose answer was lost may be.
pub fn lost_may_be_done()
    ensures { LostMayBeDone }
{}

/// Where a turn did not go well, as many creations are expected no longer as were not done.
pub fn undone_is_expected_no_more()
    ensures { UndoneIsExpectedNoMore }
{}

/// A key whose turn did not go well waits, twice as long with each failure in a row; where it went well its failures are
/// forgotten.
pub fn failed_keys_wait()
    ensures { FailedKeysWait }
{}
