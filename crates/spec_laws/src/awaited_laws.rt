//! What a controller's author may rely on while pods that it had deleted are still to be seen gone.
ghost use Rattle.spec_laws.specs.AwaitedLaws.{SeenIsAwaitedNoMore, StrangersChangeNothing, WaitsForEach, DeletionsOnlyFall};

/// A pod that is seen deleted is waited for no more, and each other pod as before.
pub fn seen_is_awaited_no_more()
    ensures { SeenIsAwaitedNoMore }
{}

/// A pod that is seen deleted and was not asked for changes nothing.
pub fn strangers_change_nothing()
    ensures { StrangersChangeNothing }
{}

/// The wait for deleted pods is over once each of them was seen, in whatever order they go, and not before, unless five
/// minutes have passed.
pub fn waits_for_each()
    ensures { WaitsForEach }
{}

/// Whatever is called, no more deletions are waited for than before, and no other ones, unless they are set again.
pub fn deletions_only_fall()
    ensures { DeletionsOnlyFall }
{}
