//! At rest, what is declared is there.
ghost use Rattle.sim_rest_laws.specs.WholeLaws.{ItFollows, LastAnswersAreYes};

/// At rest, in the last turn of a ReplicaSet all that was expected of its pods had been seen.
pub fn last_answers_are_yes()
    ensures { LastAnswersAreYes }
{}

/// Where the plans of last turns were empty, their live reads lead on, and empty plans stay empty, nothing is left to do at rest.
pub fn it_follows()
    ensures { ItFollows }
{}
