//! Laws of the objects that are there, where all is at rest.
ghost use Rattle.sim_rest_laws.specs.OwedObjectLaws.{ObjectsOweTheirKeys, ObjectsHadTheirTurns};

/// A change that leaves an object under its key owes the key to the collector and to the controller of its kind.
pub fn objects_owe_their_keys()
    ensures { ObjectsOweTheirKeys }
{}

/// At rest each object that is there was taken by the collector and by the controller of its kind for the last time since the last
/// restart, and the plan of that turn was issued and accepted.
pub fn objects_had_their_turns()
    ensures { ObjectsHadTheirTurns }
{}
