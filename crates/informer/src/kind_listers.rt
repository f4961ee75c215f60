//! The listers of a thread.
use crate::listers::Lister;
use indexer::Indexed;
use object_keys::PerKind;
use spec_api::kinds::Kind;
use std::alloc::AllocError;

/// The listers of a thread, one for each kind.
#[derive(Drop)]
pub struct Listers {
    /// One of each kind.
    pub listers: PerKind<Lister>,
}

impl Listers {
    ghost use Rattle.std.specs.Prelude.{◌≡◌, IfOk, IfSome};
    ghost use Rattle.object_keys.specs.PerKind.{of_kind, with_kind, EachKind};
    ghost use Rattle.informer.specs.Looked.{map_known, KnowsMore, AreKnown};

    /// Returns a copy of what is published of a kind. It waits for nobody. None where its informer is closed. The error is running out of
    /// memory.
    pub fn copy(&mut self, kind: Kind) -> Result<Option<Indexed>, AllocError>
        ensures found { IfOk result (λ found. IfSome found (λ map. map ≡ map_known (of_kind kind self.new.listers))) }
        ensures knows { KnowsMore (of_kind kind self.old.listers) (of_kind kind self.new.listers) }
        ensures others { self.new.listers ≡ with_kind kind (of_kind kind self.new.listers) self.old.listers }
    {
        self.listers.get_mut(kind).copy()
    }

    /// Returns copies of what is published of all kinds. None where an informer is closed. The error is running out of memory.
    pub fn all_published(&mut self) -> Result<Option<PerKind<Indexed>>, AllocError>
        ensures found { IfOk result (λ found. IfSome found (λ maps. AreKnown self.new.listers maps)) }
        ensures knows { EachKind (λ k. KnowsMore (of_kind k self.old.listers) (of_kind k self.new.listers)) }
    {
        let listers = &mut self.listers;
        let config_maps = listers.config_maps.copy();
        let pods = listers.pods.copy();
        let replica_sets = listers.replica_sets.copy();
        let deployments = listers.deployments.copy();
        let found = PerKind {
            config_maps: config_maps?,
            pods: pods?,
            replica_sets: replica_sets?,
            deployments: deployments?,
        };
        Ok(found.all())
    }
}
