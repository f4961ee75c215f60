//! What a controller's author may rely on while it waits for what it asked for.
ghost use Rattle.spec_laws.specs.ExpectationLaws.{WaitsForBoth, ForgetsAll, NoneBelowZero, OnlyFalls, StaysOver};

/// Of two creations, after the first is seen the wait lasts five minutes at most, and after the second it is over.
pub fn waits_for_both()
    ensures { WaitsForBoth }
{}

/// A ReplicaSet whose expectations were forgotten waits for nothing.
pub fn forgets_all()
    ensures { ForgetsAll }
{}

/// A creation that is seen where none is left changes nothing: expectations never fall below zero.
pub fn none_below_zero()
    ensures { NoneBelowZero }
{}

/// Whatever is called, no more creations are waited for than before, unless they are set again.
pub fn only_falls()
    ensures { OnlyFalls }
{}

/// A wait that is over stays over, unless it is set again.
pub fn stays_over()
    ensures { StaysOver }
{}
