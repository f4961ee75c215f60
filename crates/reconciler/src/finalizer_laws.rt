//! Laws of finalizers that are added and removed.
ghost use Rattle.reconciler.specs.FinalizerLaws.{FinalizersAreAdded, FinalizersAreRemoved};

/// Once a server has merged what `ensure_finalizer` asks, the object has the finalizer, and all others stay, in their order.
pub fn finalizers_are_added()
    ensures { FinalizersAreAdded }
{}

/// Once a server has merged what `remove_finalizer` asks, the object has the finalizer no longer, and all others stay, in their order.
pub fn finalizers_are_removed()
    ensures { FinalizersAreRemoved }
{}
