//! Worked turns of simulated workers, step by step.
ghost use Rattle.spec_examples.specs.SimTurnExamples.{SetsAreLookedAtFirst, PodsAreCreated, ExpectedPodsAreAwaited, LostAnswersEndTurns, LostPodsAreSeen, OrphansAreCollected, ChangesOweKeys};

/// No step of a turn is open but the next one.
pub fn sets_are_looked_at_first()
    ensures { SetsAreLookedAtFirst }
{}

/// A turn looks, expects what its plan makes of pods, issues one command after another, and ends.
pub fn pods_are_created()
    ensures { PodsAreCreated }
{}

/// While pods are expected that were not seen, none is created.
pub fn expected_pods_are_awaited()
    ensures { ExpectedPodsAreAwaited }
{}

/// After an answer that was lost nothing more is issued.
pub fn lost_answers_end_turns()
    ensures { LostAnswersEndTurns }
{}

/// A new ReplicaSet is to be looked at by its controller and the collector.
pub fn changes_owe_keys()
    ensures { ChangesOweKeys }
{}

/// A pod whose create was answered to nobody is counted once it is published, and no other is created for it.
pub fn lost_pods_are_seen()
    ensures { LostPodsAreSeen }
{}

/// The collector deletes a pod whose owner is gone.
pub fn orphans_are_collected()
    ensures { OrphansAreCollected }
{}
