//! Laws of the ReplicaSet controller's plans.
ghost use Rattle.spec_laws.specs.ReplicaSetLaws.{OnlyOwnPodsAreDeleted, OnlyMissingPodsAreCreated, OnlySurplusPodsAreDeleted, NeverBoth, TurnsAreBounded, ExpectedPodsAreAwaited, GoneSetsAreLeft, LowestGo, PodsGoOrStay, RanksAreTotal};

/// A plan deletes no pod but those that the set owns or adopts, and these by their uids.
pub fn only_own_pods_are_deleted()
    ensures { OnlyOwnPodsAreDeleted }
{}

/// A plan creates no more pods than are missing.
pub fn only_missing_pods_are_created()
    ensures { OnlyMissingPodsAreCreated }
{}

/// A plan deletes no more pods than are too many.
pub fn only_surplus_pods_are_deleted()
    ensures { OnlySurplusPodsAreDeleted }
{}

/// No plan both creates pods and deletes some.
pub fn never_both()
    ensures { NeverBoth }
{}

/// No plan creates or deletes more than 500 pods.
pub fn turns_are_bounded()
    ensures { TurnsAreBounded }
{}

/// While pods are expected that have not been seen, none is created or deleted.
pub fn expected_pods_are_awaited()
    ensures { ExpectedPodsAreAwaited }
{}

/// For a set that is not there nothing is done.
pub fn gone_sets_are_left()
    ensures { GoneSetsAreLeft }
{}

/// No pod that stays ranks before one that is deleted.
pub fn lowest_go()
    ensures { LowestGo }
{}

/// Each pod is deleted or stays, and as many are deleted as are too many, up to 500.
pub fn pods_go_or_stay()
    ensures { PodsGoOrStay }
{}

/// Of two pods with different keys one ranks before the other.
pub fn ranks_are_total()
    ensures { RanksAreTotal }
{}
