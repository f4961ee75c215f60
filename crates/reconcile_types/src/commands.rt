//! Commands of controllers.

use meta::Object;
use object_keys::Key;
use spec_api::policies::Policy;

/// The version that an object is to have where a command is served.
#[derive(Drop)]
pub enum Version {
    /// One that was read.
    Seen(String),
    /// That of the answer to the command before.
    Answered,
}

/// What a controller asks of the server.
pub enum Command {
    /// Creates an object in a namespace.
    Create {
        namespace: String,
        object: Object,
    },
    /// Replaces an object, at the `resourceVersion` that the new one names.
    Update {
        key: Key,
        object: Object,
    },
    /// Replaces the status of an object, at the `resourceVersion` that the new one names.
    UpdateStatus {
        key: Key,
        object: Object,
    },
    /// Deletes an object, if it has this uid and this version, where they are given. Without a policy the server's default
    /// applies.
    Delete {
        key: Key,
        uid: Option<String>,
        version: Option<Version>,
        policy: Option<Policy>,
    },
}

impl Drop for Command {
    // Called where one is dropped; a derived drop is proved anew at each such place.
    fn drop(self) {
        match self {
            Command::Create {
                namespace: _namespace,
                object: _object,
            } => {}
            Command::Update {
                key: _key,
                object: _object,
            }
            | Command::UpdateStatus {
                key: _key,
                object: _object,
            } => {}
            Command::Delete {
                key: _key,
                uid: _uid,
                version: _version,
                policy: _policy,
            } => {}
        }
    }
}

/// The commands of a turn, which are issued one after another.
#[derive(Drop)]
pub struct Plan {
    pub commands: Vec<Command>,
}
