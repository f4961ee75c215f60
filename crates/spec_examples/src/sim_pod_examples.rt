//! Worked facts of pods.
ghost use Rattle.spec_examples.specs.SimPodExamples.{ChangesShowPods, OthersShowNothing};

/// A change shows which pods were created and deleted.
pub fn changes_show_pods()
    ensures { ChangesShowPods }
{}

/// A change of the first list shows nothing of expected pods, nor does one of another object.
pub fn others_show_nothing()
    ensures { OthersShowNothing }
{}
