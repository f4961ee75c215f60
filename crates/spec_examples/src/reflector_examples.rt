//! Worked facts of reflectors, which the checker computes from the definitions.
ghost use Rattle.spec_examples.specs.ReflectorExamples.{ListsAreTakenIn, ChangesAreTakenIn, PartsAreHeld, EndsAreSeen};

/// What exact bytes do to a reflector.
pub fn bytes_are_taken_in()
    // A list is read with the kind of each item filled in; one of another kind is none, nor one with an object twice.
    ensures lists_are_taken_in { ListsAreTakenIn }
    // An update puts an object and moves the revision, a removal takes it away.
    ensures changes_are_taken_in { ChangesAreTakenIn }
    // Of half a frame nothing comes; with the other half the revision moves.
    ensures parts_are_held { PartsAreHeld }
    // An error of 410 is an expiry and another is not; an old revision can't be read, nor what is no frame.
    ensures ends_are_seen { EndsAreSeen }
{}
