//! What a path names.
ghost use Rattle.std.specs.Prelude.{◌≡◌, option_map, option_and_then};
ghost use Rattle.spec_api.specs.Kinds.{kind_with_plural};
ghost use Rattle.spec_api.specs.Targets.{collection, object_at, status_of, kind_with_status};
ghost use Rattle.request_parts.specs.RoutesSeen.{now, route_seen, assembled};

use crate::entries::{Layout, RouteEntry};
use metadata_values::is_namespace;
use spec_api::kinds::{Group, Kind};

/// What a path names.
#[derive(Clone, Copy)]
pub enum Target<'p> {
    /// The objects of a kind, in one namespace or in all.
    Collection(Kind, Option<&'p str>),
    /// An object, by its kind, namespace and name.
    Object(Kind, &'p str, &'p str),
    /// The status of an object, by its kind, namespace and name.
    Status(Kind, &'p str, &'p str),
}

impl Target<'_> {
    ghost use Rattle.std.specs.Prelude.{◌≡◌};
    ghost use Rattle.spec_api.specs.Targets.{names_namespace};
    ghost use Rattle.request_parts.specs.RoutesSeen.{route_seen};

    /// Returns whether the namespace, where there is one, is a DNS label of at most 63 bytes.
    pub fn names_namespace(&self) -> bool
        ensures { result ≡ names_namespace (route_seen self.now) }
    {
        match *self {
            Target::Collection(_, None) => true,
            Target::Collection(_, Some(namespace)) => is_namespace(namespace),
            Target::Object(_, namespace, _) => is_namespace(namespace),
            Target::Status(_, namespace, _) => is_namespace(namespace),
        }
    }
}

fn collection<'p>(group: Group, resource: &str, namespace: Option<&'p str>) -> Option<Target<'p>>
    ensures { option_map route_seen result ≡ option_map (λ k. collection k (option_map now namespace.entry)) (kind_with_plural group resource.now) }
{
    let kind = group.kind_with_plural(resource)?;
    Some(Target::Collection(kind, namespace))
}

fn object<'p>(group: Group, resource: &str, namespace: &'p str, name: &'p str) -> Option<Target<'p>>
    ensures { option_map route_seen result
        ≡ option_map (λ k. object_at (record { kind = k; namespace = namespace.now; name = name.now })) (kind_with_plural group resource.now) }
{
    let kind = group.kind_with_plural(resource)?;
    Some(Target::Object(kind, namespace, name))
}

fn status<'p>(group: Group, resource: &str, namespace: &'p str, name: &'p str) -> Option<Target<'p>>
    ensures { option_map route_seen result
        ≡ option_map (λ k. status_of (record { kind = k; namespace = namespace.now; name = name.now })) (option_and_then kind_with_status (kind_with_plural group resource.now)) }
{
    status_of(group.kind_with_plural(resource)?, namespace, name)
}

/// Returns the status of an object, where its kind has one.
fn status_of<'p>(kind: Kind, namespace: &'p str, name: &'p str) -> Option<Target<'p>>
    ensures { option_map route_seen result
        ≡ option_map (λ k. status_of (record { kind = k; namespace = namespace.now; name = name.now })) (kind_with_status kind) }
{
    if !kind.has_status() {
        return None;
    }
    Some(Target::Status(kind, namespace, name))
}

/// Returns what a path with these parameters names.
pub(crate) fn assemble<'p>(
    entry: RouteEntry,
    resource: Option<&'p str>,
    namespace: Option<&'p str>,
    name: Option<&'p str>,
) -> Option<Target<'p>>
    ensures { option_map route_seen result ≡ assembled entry (option_map now resource.entry) (option_map now namespace.entry) (option_map now name.entry) }
{
    let resource = resource?;
    match entry.layout {
        Layout::All => collection(entry.group, resource, None),
        Layout::Namespace => collection(entry.group, resource, Some(namespace?)),
        Layout::Object => object(entry.group, resource, namespace?, name?),
        Layout::Status => status(entry.group, resource, namespace?, name?),
    }
}
