//! What a refusal names beside an object: a part of the request, a precondition, a field.

/// The part of a request that is at fault.
#[derive(Clone, Copy, Debug)]
pub enum Part {
    /// The request line or the head.
    Head,
    /// The path.
    Path,
    /// The query, but for its page token.
    Query,
    /// The page token in the query.
    Token,
    /// The body, which is no JSON object that can be read.
    Body,
    /// A member of the object in the body.
    Object,
    /// The options of a delete.
    Options,
}

/// What a conditional request named and the object is not.
#[derive(Clone, Copy, Debug)]
pub enum Mismatch {
    /// Another version of the object is there.
    Modified,
    /// The precondition on the uid is not met.
    Uid,
    /// The precondition on the version is not met.
    ResourceVersion,
}

/// The first field of an object that is not valid.
#[derive(Clone, Copy, Debug)]
pub enum Field {
    Name,
    GenerateName,
    Labels,
    Finalizers,
    OwnerReferences,
    Replicas,
    Selector,
    Template,
    Strategy,
    RevisionHistoryLimit,
    Status,
}

impl Part {
    ghost use Rattle.std.specs.Prelude.{◌≡◌};
    ghost use Rattle.spec_api.specs.Refusals.{part_text};

    /// Returns how a message names the part.
    pub fn text(self) -> &'static str
        ensures { result.now ≡ part_text self }
    {
        match self {
            Part::Head => "head",
            Part::Path => "path",
            Part::Query => "query",
            Part::Token => "token",
            Part::Body => "body",
            Part::Object => "object",
            Part::Options => "options",
        }
    }
}

impl Mismatch {
    ghost use Rattle.std.specs.Prelude.{◌≡◌};
    ghost use Rattle.spec_api.specs.Refusals.{mismatch_text};

    /// Returns the end of the message.
    pub fn text(self) -> &'static str
        ensures { result.now ≡ mismatch_text self }
    {
        match self {
            Mismatch::Modified => {
                "the object has been modified; please apply your changes to the latest version and try again"
            }
            Mismatch::Uid => "the precondition on uid is not met",
            Mismatch::ResourceVersion => "the precondition on resourceVersion is not met",
        }
    }
}

impl Field {
    ghost use Rattle.std.specs.Prelude.{◌≡◌};
    ghost use Rattle.spec_api.specs.Refusals.{field_text};

    /// Returns how a message names the field: its path in the object.
    pub fn text(self) -> &'static str
        ensures { result.now ≡ field_text self }
    {
        match self {
            Field::Name => "metadata.name",
            Field::GenerateName => "metadata.generateName",
            Field::Labels => "metadata.labels",
            Field::Finalizers => "metadata.finalizers",
            Field::OwnerReferences => "metadata.ownerReferences",
            Field::Replicas => "spec.replicas",
            Field::Selector => "spec.selector",
            Field::Template => "spec.template",
            Field::Strategy => "spec.strategy",
            Field::RevisionHistoryLimit => "spec.revisionHistoryLimit",
            Field::Status => "status",
        }
    }
}
