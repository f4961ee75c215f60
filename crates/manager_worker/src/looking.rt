//! What a worker looks at.
ghost use Rattle.std.specs.Prelude.{Option};
ghost use Rattle.spec_api.specs.declared.kinds.Kind as kinds;
ghost use Rattle.spec_server.specs.Snapshots.{Snapshot};
ghost use Rattle.manager_worker.specs.Looking.{shown_by, Shows};

use indexer::Indexed;
use informer::Listers;
use spec_api::kinds::Kind;
use std::alloc::AllocError;

/// What can be looked at: what is published of each kind.
pub trait Looking {
    /// What it is after a look at a kind, and what that showed, if anything: any relation.
    ghost shows: { Self → kinds.Kind → Option Snapshot → Self → Type 0 };

    /// Returns a copy of what is published of a kind, which shares the objects; none where nothing is published any more. The error is
    /// running out of memory.
    fn published(&mut self, kind: Kind) -> Result<Option<Indexed>, AllocError>
        ensures { shows self.old kind (shown_by result) self.new };
}

impl Looking for Listers {
    ghost shows = { Shows };

    fn published(&mut self, kind: Kind) -> Result<Option<Indexed>, AllocError> {
        self.copy(kind)
    }
}
