//! How the members of an object are described.
use crate::kinds::Kind;

/// What a value has to be.
#[derive(Clone, Copy)]
pub enum Shape {
    /// Any value.
    Anything,
    /// No value: the member may not be there.
    Nothing,
    /// A text.
    Text,
    /// A text that names the kind's API version.
    VersionOf(Kind),
    /// A text that names the kind.
    NameOf(Kind),
    /// A truth value.
    Truth,
    /// A whole number, from the first to the second.
    Whole(i64, i64),
    /// A list of texts.
    TextList,
    /// A list of objects, each with this schema.
    List(Schema),
    /// An object with this schema.
    Object(Schema),
}

/// The objects within objects whose members are described.
#[derive(Clone, Copy)]
pub enum Schema {
    /// An object of the kind itself.
    Root(Kind),
    /// Each member is a text.
    Texts,
    Metadata,
    OwnerReference,
    PodSpec,
    PodStatus,
    Condition,
    ReplicaSetSpec,
    ReplicaSetStatus,
    DeploymentSpec,
    DeploymentStatus,
    Selector,
    Expression,
    Template,
    TemplateMetadata,
    Strategy,
    /// The options of a delete.
    DeleteOptions,
    Preconditions,
    /// No member is described.
    Unknown,
}

/// What a schema has of a member: its shape, and whether an empty one counts as absent.
#[derive(Clone, Copy)]
pub struct Property {
    pub shape: Shape,
    pub drops_empty: bool,
}
