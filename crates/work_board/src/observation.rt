//! What is expected no longer.
use object_keys::Key;

/// One ReplicaSet: its key and its uid.
pub struct Owner {
    pub key: Key,
    pub uid: String,
}

impl Drop for Owner {
    // Called where one is dropped; a derived drop is proved anew at each such place.
    fn drop(self) {
        let Owner {
            key: _key,
            uid: _uid,
        } = self;
    }
}

/// A pod that a ReplicaSet expects no longer: it was seen created or deleted, or the request was refused or not sent.
pub enum Observation {
    /// A pod of this ReplicaSet is expected no longer to be created.
    CreationObserved { owner: Owner },
    /// The pod of this uid is expected no longer to be deleted.
    DeletionObserved { owner: Owner, pod: String },
}

impl Drop for Observation {
    // Called where one is dropped; a derived drop is proved anew at each such place.
    fn drop(self) {
        match self {
            Observation::CreationObserved { owner: _owner } => {}
            Observation::DeletionObserved {
                owner: _owner,
                pod: _pod,
            } => {}
        }
    }
}
