//! The kinds that are served, and the API groups that they belong to.

/// A group of kinds, whose paths begin alike (Kubernetes API Overview, API groups).
#[derive(Clone, Copy)]
pub enum Group {
    /// The group without a name, under `/api/v1`.
    Core,
    /// The group `apps`, under `/apis/apps/v1`.
    Apps,
}

/// A kind of object. Kinds are ordered as they stand here.
#[derive(Clone, Copy, Debug, PartialEq, Eq, PartialOrd, Ord, Hash)]
pub enum Kind {
    /// Texts that programs read (Kubernetes API reference, ConfigMap v1).
    ConfigMap,
    /// Containers that run together (Kubernetes API reference, Pod v1).
    Pod,
    /// A number of like pods (Kubernetes API reference, ReplicaSet apps/v1).
    ReplicaSet,
    /// A rollout of ReplicaSets (Kubernetes API reference, Deployment apps/v1).
    Deployment,
}

/// The facts of a kind.
#[derive(Clone, Copy)]
struct Facts {
    /// Its place in the order of kinds.
    rank: usize,
    /// What an object of the kind, and a list of them, says in its members `kind` and `apiVersion`.
    name: &'static str,
    list_name: &'static str,
    api_version: &'static str,
    group: Group,
    /// The name of its resource in paths, and in messages, where the group follows.
    plural: &'static str,
    resource: &'static str,
    has_status: bool,
    has_generation: bool,
}

impl Group {
    ghost use Rattle.std.specs.Prelude.{◌≡◌};
    ghost use Rattle.spec_api.specs.Kinds.{text_of_group, kind_with_plural};

    /// Returns the name of the group; the core group has none.
    pub fn name(self) -> &'static str
        ensures { result.now ≡ text_of_group self }
    {
        match self {
            Group::Core => "",
            Group::Apps => "apps",
        }
    }

    /// Returns the kind of this group whose plural name this is.
    pub fn kind_with_plural(self, plural: &str) -> Option<Kind>
        ensures { result ≡ kind_with_plural self plural.now }
    {
        Kind::ALL
            .iter()
            .find(|kind| self.name() == kind.group_name() && plural == kind.plural())
            .copied()
    }
}

impl Kind {
    ghost use Rattle.std.specs.Prelude.{◌≡◌};
    ghost use Rattle.spec_api.specs.Kinds.{rank, kind_text, list_kind, api_version, group, plural, has_status, has_generation, kind_after, group_name, resource};

    /// All kinds, in their order.
    pub const ALL: [Kind; 4] = [
        Kind::ConfigMap,
        Kind::Pod,
        Kind::ReplicaSet,
        Kind::Deployment,
    ];

    /// Returns the facts of the kind: the one table of kinds.
    fn facts(self) -> Facts
        ensures rank { result.rank ≡ rank self }
        ensures name { result.name.now ≡ kind_text self }
        ensures list_name { result.list_name.now ≡ list_kind self }
        ensures api_version { result.api_version.now ≡ api_version self }
        ensures group { result.group ≡ group self }
        ensures plural { result.plural.now ≡ plural self }
        ensures resource { result.resource.now ≡ resource self }
        ensures has_status { result.has_status ≡ has_status self }
        ensures has_generation { result.has_generation ≡ has_generation self }
    {
        match self {
            Kind::ConfigMap => Facts {
                rank: 0,
                name: "ConfigMap",
                list_name: "ConfigMapList",
                api_version: "v1",
                group: Group::Core,
                plural: "configmaps",
                resource: "configmaps",
                has_status: false,
                has_generation: false,
            },
            Kind::Pod => Facts {
                rank: 1,
                name: "Pod",
                list_name: "PodList",
                api_version: "v1",
                group: Group::Core,
                plural: "pods",
                resource: "pods",
                has_status: true,
                has_generation: false,
            },
            Kind::ReplicaSet => Facts {
                rank: 2,
                name: "ReplicaSet",
                list_name: "ReplicaSetList",
                api_version: "apps/v1",
                group: Group::Apps,
                plural: "replicasets",
                resource: "replicasets.apps",
                has_status: true,
                has_generation: true,
            },
            Kind::Deployment => Facts {
                rank: 3,
                name: "Deployment",
                list_name: "DeploymentList",
                api_version: "apps/v1",
                group: Group::Apps,
                plural: "deployments",
                resource: "deployments.apps",
                has_status: true,
                has_generation: true,
            },
        }
    }

    /// Returns the kind's place in the order of kinds.
    pub fn rank(self) -> usize
        ensures { result ≡ rank self }
    {
        self.facts().rank
    }

    /// Returns the kind after this one, if there is one.
    pub fn next(self) -> Option<Kind>
        ensures { result ≡ kind_after self }
    {
        Kind::ALL.get(self.rank() + 1).copied()
    }

    /// Returns the group that the kind belongs to.
    pub fn group(self) -> Group
        ensures { result ≡ group self }
    {
        self.facts().group
    }

    /// Returns the name of that group; the core group has none.
    pub fn group_name(self) -> &'static str
        ensures { result.now ≡ group_name self }
    {
        self.group().name()
    }

    /// Returns the member `kind` of an object of the kind.
    pub fn name(self) -> &'static str
        ensures { result.now ≡ kind_text self }
    {
        self.facts().name
    }

    /// Returns the member `kind` of a list of its objects.
    pub fn list_name(self) -> &'static str
        ensures { result.now ≡ list_kind self }
    {
        self.facts().list_name
    }

    /// Returns the member `apiVersion` of its objects and lists.
    pub fn api_version(self) -> &'static str
        ensures { result.now ≡ api_version self }
    {
        self.facts().api_version
    }

    /// Returns the name of its resource in paths.
    pub fn plural(self) -> &'static str
        ensures { result.now ≡ plural self }
    {
        self.facts().plural
    }

    /// Returns the name of its resource in messages, with the group.
    pub fn resource(self) -> &'static str
        ensures { result.now ≡ resource self }
    {
        self.facts().resource
    }

    /// Returns whether its objects have a status, at a path of its own.
    pub fn has_status(self) -> bool
        ensures { result ≡ has_status self }
    {
        self.facts().has_status
    }

    /// Returns whether the server counts changes of its objects' specs in `metadata.generation`.
    pub fn has_generation(self) -> bool
        ensures { result ≡ has_generation self }
    {
        self.facts().has_generation
    }
}
