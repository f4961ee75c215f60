//! Laws of the pods that are made for a ReplicaSet.
ghost use Rattle.sim_overshoot_laws.specs.MadePods.{MadePodsStayOfSet, MadePodsAreKept};

/// Whatever steps are taken that let a set alone, whenever one of the pods that are made for it is there, it names the set as its controller and matches it.
pub fn made_pods_stay_of_set()
    ensures { MadePodsStayOfSet }
{}

/// So they are kept, whatever steps are taken.
pub fn made_pods_are_kept()
    ensures { MadePodsAreKept }
{}
