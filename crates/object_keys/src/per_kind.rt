//! What stands once for each kind.
use spec_api::kinds::Kind;
use std::alloc::{AllocError, Global};

/// What stands once for each kind: the same for all, as a map of the objects of each, or something else of each, as a way to ask for them.
#[derive(Drop)]
pub struct PerKind<T> {
    pub config_maps: T,
    pub pods: T,
    pub replica_sets: T,
    pub deployments: T,
}

impl<T> PerKind<T> {
    ghost use Rattle.std.specs.Prelude.{◌≡◌};
    ghost use Rattle.object_keys.specs.PerKind.{of_kind, each_kind, EachKind};

    /// Returns what is made for each kind, one kind after another.
    pub fn made<F: Fn(Kind) -> T>(make: F) -> PerKind<T>
        requires { F.IsAlwaysCallable make }
        ensures { EachKind (λ k. F.post make k (of_kind k result)) }
    {
        PerKind {
            config_maps: make(Kind::ConfigMap),
            pods: make(Kind::Pod),
            replica_sets: make(Kind::ReplicaSet),
            deployments: make(Kind::Deployment),
        }
    }

    /// Returns what stands for a kind.
    pub fn get(&self, kind: Kind) -> &T
        ensures { result.now ≡ of_kind kind self.now }
    {
        match kind {
            Kind::ConfigMap => &self.config_maps,
            Kind::Pod => &self.pods,
            Kind::ReplicaSet => &self.replica_sets,
            Kind::Deployment => &self.deployments,
        }
    }

    /// Returns what stands for each kind, beside what stands for it in another table.
    pub fn zip<U>(self, other: PerKind<U>) -> PerKind<(T, U)>
        ensures { result ≡ each_kind (λ k. (of_kind k self, of_kind k other)) }
    {
        PerKind {
            config_maps: (self.config_maps, other.config_maps),
            pods: (self.pods, other.pods),
            replica_sets: (self.replica_sets, other.replica_sets),
            deployments: (self.deployments, other.deployments),
        }
    }
}

impl<T> PerKind<T> {
    ghost use Rattle.std.specs.Prelude.{◌≡◌};
    ghost use Rattle.std.specs.Borrow.{Lends, sem};
    ghost use Rattle.object_keys.specs.PerKind.{of_kind, with_kind};
    ghost use Rattle.object_keys.specs.contracts.per_kind.PerKind.{the_row};

    /// Returns a reference through which what stands for a kind can be changed.
    pub fn get_mut(&mut self, kind: Kind) -> &mut T
        ensures value { result.now ≡ of_kind kind self.old }
        ensures* writes_back { sem 𝓛 (Lends (the_row T.row) T.row self.entry result (λ value. with_kind kind value self.old)) }
    {
        match kind {
            Kind::ConfigMap => &mut self.config_maps,
            Kind::Pod => &mut self.pods,
            Kind::ReplicaSet => &mut self.replica_sets,
            Kind::Deployment => &mut self.deployments,
        }
    }
}

impl<T: Drop> PerKind<T> {
    ghost use Rattle.std.specs.Prelude.{◌≡◌, ◌<◌, ◌++◌, IfOk, IfSome, IfNone, Ok, length, vec_len};
    ghost use Rattle.std.specs.List.{FoldsTo};
    ghost use Rattle.spec_api.specs.Kinds.{kinds};
    ghost use Rattle.object_keys.specs.PerKind.{of_kind, with_kind, EachKind, GivesAtMut, MayChange, values, entries};

    /// Returns what is made for each kind, one kind after another, or the first error.
    pub fn try_made<E, F: Fn(Kind) -> Result<T, E>>(make: F) -> Result<PerKind<T>, E>
        requires { F.IsAlwaysCallable make }
        ensures { IfOk result (λ made. EachKind (λ k. F.post make k (Ok (of_kind k made)))) }
    {
        PerKind::try_made_in_turn(make)
    }

    /// Returns what is made for each kind, one kind after another, or the first error. What is made for a kind may change what is made for those
    /// after it.
    pub fn try_made_in_turn<E, F: FnMut(Kind) -> Result<T, E>>(mut make: F) -> Result<PerKind<T>, E>
        requires { F.IsAlwaysCallable make }
        ensures { IfOk result (λ made. (last : F) × FoldsTo (λ before entry after. F.step before entry.0 (Ok entry.1) after) make (entries made) last) }
    {
        Ok(PerKind {
            config_maps: make(Kind::ConfigMap)?,
            pods: make(Kind::Pod)?,
            replica_sets: make(Kind::ReplicaSet)?,
            deployments: make(Kind::Deployment)?,
        })
    }

    /// Puts a value in the place of what stood for a kind.
    pub fn put(&mut self, kind: Kind, value: T)
        ensures { self.new ≡ with_kind kind value self.old }
    {
        match kind {
            Kind::ConfigMap => self.config_maps = value,
            Kind::Pod => self.pods = value,
            Kind::ReplicaSet => self.replica_sets = value,
            Kind::Deployment => self.deployments = value,
        }
    }

    /// Returns what a call gives for what stands for each kind, one kind after another, or the first error. What stands for kinds after that one
    /// stays as it was.
    pub fn try_map_mut<U: Drop, E, F: FnMut(&mut T) -> Result<U, E>>(
        &mut self,
        mut change: F,
    ) -> Result<PerKind<U>, E>
        requires { F.IsAlwaysCallable change }
        ensures ok { IfOk result (λ made. EachKind (λ k. GivesAtMut F.FnMut (of_kind k self.old) (Ok (of_kind k made)) (of_kind k self.new))) }
        ensures each { EachKind (λ k. MayChange F.FnMut (of_kind k self.old) (of_kind k self.new)) }
    {
        Ok(PerKind {
            config_maps: change(&mut self.config_maps)?,
            pods: change(&mut self.pods)?,
            replica_sets: change(&mut self.replica_sets)?,
            deployments: change(&mut self.deployments)?,
        })
    }

    /// Takes what stands last in a list for the kinds, in their order. Where less stands there, nothing is taken.
    pub fn taken_from(items: &mut Vec<T>) -> Option<PerKind<T>>
        ensures some { IfSome result (λ taken. items.old.items ≡ items.new.items ++ values taken) }
        ensures none { IfNone result ((vec_len items.old < length kinds) × (items.new ≡ items.old)) }
    {
        if items.len() < Kind::ALL.len() {
            return None;
        }
        let deployments = items.pop()?;
        let replica_sets = items.pop()?;
        let pods = items.pop()?;
        let config_maps = items.pop()?;
        Some(PerKind {
            config_maps,
            pods,
            replica_sets,
            deployments,
        })
    }

    /// Returns what a call gives for what stands for each kind, one kind after another, or the first error.
    pub fn try_map<U: Drop, E, F: Fn(T) -> Result<U, E>>(self, change: F) -> Result<PerKind<U>, E>
        requires { EachKind (λ k. F.pre change (of_kind k self)) }
        ensures { IfOk result (λ made. EachKind (λ k. F.post change (of_kind k self) (Ok (of_kind k made)))) }
    {
        let PerKind {
            config_maps,
            pods,
            replica_sets,
            deployments,
        } = self;
        Ok(PerKind {
            config_maps: change(config_maps)?,
            pods: change(pods)?,
            replica_sets: change(replica_sets)?,
            deployments: change(deployments)?,
        })
    }

    /// Returns each kind with what stands for it, in their order. The error is running out of memory.
    pub fn into_entries(self, alloc: Global) -> Result<Vec<(Kind, T)>, AllocError>
        ensures { IfOk result (λ v. v.items ≡ entries self) }
    {
        let mut made = Vec::with_capacity(alloc, Kind::ALL.len())?;
        made.push((Kind::ConfigMap, self.config_maps))?;
        made.push((Kind::Pod, self.pods))?;
        made.push((Kind::ReplicaSet, self.replica_sets))?;
        made.push((Kind::Deployment, self.deployments))?;
        Ok(made)
    }
}

impl<T: Drop> PerKind<Option<T>> {
    ghost use Rattle.std.specs.Prelude.{◌≡◌, Some, None, IfSome, IfNone};
    ghost use Rattle.object_keys.specs.PerKind.{of_kind, EachKind, SomeKind};

    /// Returns what stands for each kind, if something does for all of them.
    pub fn all(self) -> Option<PerKind<T>>
        ensures some { IfSome result (λ all. EachKind (λ k. of_kind k self ≡ Some (of_kind k all))) }
        ensures none { IfNone result (SomeKind (λ k. of_kind k self ≡ None)) }
    {
        Some(PerKind {
            config_maps: self.config_maps?,
            pods: self.pods?,
            replica_sets: self.replica_sets?,
            deployments: self.deployments?,
        })
    }
}
