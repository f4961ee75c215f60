//! Laws of ReplicaSets and their selectors, whoever asks.
ghost use Rattle.sim_overshoot_laws.specs.SetLaws.{SetsMatchTheirTemplates, SelectorsStay, NewPodsMatchTheirSet};

/// The selector of a ReplicaSet matches its template, whenever it is there.
pub fn sets_match_their_templates()
    ensures { SetsMatchTheirTemplates }
{}

/// A ReplicaSet has one selector as long as it is there.
pub fn selectors_stay()
    ensures { SelectorsStay }
{}

/// What is stored of the pod that is made of a set's template matches the set.
pub fn new_pods_match_their_set()
    ensures { NewPodsMatchTheirSet }
{}
