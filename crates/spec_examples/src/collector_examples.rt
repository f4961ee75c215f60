//! Worked facts of the garbage collector, which the checker computes from the definitions.
ghost use Rattle.spec_examples.specs.CollectorExamples.{OwnersAreAskedOnce, NothingIsDoneToNothing, LiveOwnersAreKept, LiveOwnersGoFirst, OtherKindsStand, DeletionsAloneStand, NamesakesOwnNothing, GarbageGoesAtOnce, PoliciesAreKept, DependentsGoFirst, TheirsGoBeforeThem, ChainsAreCut, OrphansAreLetGo, BlockedOwnersWait, OthersGo, OtherFinalizersAreLeft};

/// Which owners are read live.
pub fn owners_are_asked_for()
    // Those of served kinds, each key once.
    ensures { OwnersAreAskedOnce }
{}

/// What becomes of an object, as its owners stand.
pub fn owners_decide()
    // Of an absent object nothing is asked.
    ensures nothing { NothingIsDoneToNothing }
    // Of a live owner and one that is gone the live one is kept.
    ensures live { LiveOwnersAreKept }
    // Of a live owner and one that waits the live one is kept.
    ensures first { LiveOwnersGoFirst }
    // An owner of a kind that is not served stands.
    ensures others { OtherKindsStand }
    // So does one that is being deleted and does not wait for its dependents.
    ensures deleted { DeletionsAloneStand }
    // An owner that is made again under its name is another.
    ensures namesakes { NamesakesOwnNothing }
{}

/// How an object goes that has no owner which stands.
pub fn garbage_goes()
    // What has dependents itself, and no owner any more, goes at once.
    ensures at_once { GarbageGoesAtOnce }
    // It goes by the policy of its finalizers.
    ensures by_policy { PoliciesAreKept }
    // A dependent for which its only owner waits goes.
    ensures dependents { DependentsGoFirst }
    // After its own dependents, if it has some.
    ensures theirs { TheirsGoBeforeThem }
    // Where one of these waits too, no owner waits for it any more.
    ensures chains { ChainsAreCut }
{}

/// What becomes of an object that is being deleted.
pub fn deletions_are_finished()
    // With `Orphan` its dependents are let go.
    ensures orphans { OrphansAreLetGo }
    // With `Foreground` it stays while a dependent blocks it.
    ensures blocked { BlockedOwnersWait }
    // And goes where none does.
    ensures others { OthersGo }
    // What is being deleted by neither is left to others.
    ensures left { OtherFinalizersAreLeft }
{}
