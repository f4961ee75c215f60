//! Laws of what commands write, where all else has come to rest.
ghost use Rattle.sim_rest_command_laws.specs.CommandLaws.{OwnWritesOwe, DeletesOwe, CollectorsFirstCommandsOwe, CollectorsDeletesOwe, ReportsOwe, ControlledOwe, ReleasesOwe};

/// What is written under the key of a turn owes it, where an object is there in the end.
pub fn own_writes_owe()
    ensures { OwnWritesOwe }
{}

/// A delete of an object that was not being deleted when it was looked at, and each change of which owes the key, owes it.
pub fn deletes_owe()
    ensures { DeletesOwe }
{}

/// The first command of a plan of the collector, once accepted, owes its key, unless it writes nothing and is an update before a delete
/// of the object.
pub fn collectors_first_commands_owe()
    ensures { CollectorsFirstCommandsOwe }
{}

/// Each accepted delete of the object of a turn of the collector, by its uid, owes its key, if the object is there in the end and is not
/// being deleted.
pub fn collectors_deletes_owe()
    ensures { CollectorsDeletesOwe }
{}

/// An accepted update of the status of a ReplicaSet or a Deployment that says another status than was looked at owes its key.
pub fn reports_owe()
    ensures { ReportsOwe }
{}

/// Each change of a Pod that a ReplicaSet controls, and of a ReplicaSet that a Deployment controls, owes the key of that.
pub fn controlled_owe()
    ensures { ControlledOwe }
{}

/// An accepted update by which a ReplicaSet releases a pod owes its key.
pub fn releases_owe()
    ensures { ReleasesOwe }
{}
