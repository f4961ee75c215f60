//! The schemas of objects: tables of their members.
ghost use Rattle.std.specs.Prelude.{◌≡◌};
ghost use Rattle.spec_api.specs.Schemas.{with_shape, unless_empty, property_at};
ghost use Rattle.spec_api.specs.declared.schemas.Schema.TheVariants.{Root, Metadata, OwnerReference, PodSpec, PodStatus, Condition, ReplicaSetSpec, ReplicaSetStatus, DeploymentSpec, DeploymentStatus, Selector, Expression, Template, TemplateMetadata, Strategy, DeleteOptions, Preconditions};

use spec_api::kinds::Kind;
use spec_api::schemas::{Property, Schema, Shape};

/// A whole number of 32 bits.
const COUNT: Shape = Shape::Whole(i32::MIN as i64, i32::MAX as i64);

/// A whole number from 0, below 2^53.
const GENERATION: Shape = Shape::Whole(0, (1 << 53) - 1);

fn with_shape(shape: Shape) -> Property
    ensures { result ≡ with_shape shape }
{
    Property {
        shape,
        drops_empty: false,
    }
}

fn unless_empty(shape: Shape) -> Property
    ensures { result ≡ unless_empty shape }
{
    Property {
        shape,
        drops_empty: true,
    }
}

fn metadata_member(name: &str) -> Property
    ensures { result ≡ property_at Metadata name.now }
{
    match name {
        "name"
        | "generateName"
        | "namespace"
        | "uid"
        | "resourceVersion"
        | "creationTimestamp"
        | "deletionTimestamp" => unless_empty(Shape::Text),
        "labels" | "annotations" => unless_empty(Shape::Object(Schema::Texts)),
        "finalizers" => unless_empty(Shape::TextList),
        "ownerReferences" => unless_empty(Shape::List(Schema::OwnerReference)),
        _ => with_shape(Shape::Anything),
    }
}

fn owner_reference_member(name: &str) -> Property
    ensures { result ≡ property_at OwnerReference name.now }
{
    match name {
        "controller" | "blockOwnerDeletion" => with_shape(Shape::Truth),
        _ => with_shape(Shape::Anything),
    }
}

fn pod_spec_member(name: &str) -> Property
    ensures { result ≡ property_at PodSpec name.now }
{
    match name {
        "nodeName" => with_shape(Shape::Text),
        _ => with_shape(Shape::Anything),
    }
}

fn pod_status_member(name: &str) -> Property
    ensures { result ≡ property_at PodStatus name.now }
{
    match name {
        "phase" => with_shape(Shape::Text),
        "conditions" => with_shape(Shape::List(Schema::Condition)),
        _ => with_shape(Shape::Anything),
    }
}

fn condition_member(name: &str) -> Property
    ensures { result ≡ property_at Condition name.now }
{
    match name {
        "type" | "status" => with_shape(Shape::Text),
        _ => with_shape(Shape::Anything),
    }
}

fn replica_set_spec_member(name: &str) -> Property
    ensures { result ≡ property_at ReplicaSetSpec name.now }
{
    match name {
        "replicas" => with_shape(COUNT),
        "selector" => with_shape(Shape::Object(Schema::Selector)),
        "template" => with_shape(Shape::Object(Schema::Template)),
        _ => with_shape(Shape::Anything),
    }
}

fn replica_set_status_member(name: &str) -> Property
    ensures { result ≡ property_at ReplicaSetStatus name.now }
{
    match name {
        "replicas" | "readyReplicas" | "availableReplicas" => with_shape(COUNT),
        "observedGeneration" => with_shape(GENERATION),
        _ => with_shape(Shape::Anything),
    }
}

fn deployment_spec_member(name: &str) -> Property
    ensures { result ≡ property_at DeploymentSpec name.now }
{
    match name {
        "replicas" | "revisionHistoryLimit" => with_shape(COUNT),
        "paused" => with_shape(Shape::Truth),
        "selector" => with_shape(Shape::Object(Schema::Selector)),
        "template" => with_shape(Shape::Object(Schema::Template)),
        "strategy" => with_shape(Shape::Object(Schema::Strategy)),
        _ => with_shape(Shape::Anything),
    }
}

fn deployment_status_member(name: &str) -> Property
    ensures { result ≡ property_at DeploymentStatus name.now }
{
    match name {
        "replicas"
        | "readyReplicas"
        | "availableReplicas"
        | "updatedReplicas"
        | "unavailableReplicas"
        | "collisionCount" => with_shape(COUNT),
        "observedGeneration" => with_shape(GENERATION),
        _ => with_shape(Shape::Anything),
    }
}

fn selector_member(name: &str) -> Property
    ensures { result ≡ property_at Selector name.now }
{
    match name {
        "matchLabels" => with_shape(Shape::Object(Schema::Texts)),
        "matchExpressions" => with_shape(Shape::List(Schema::Expression)),
        _ => with_shape(Shape::Anything),
    }
}

fn expression_member(name: &str) -> Property
    ensures { result ≡ property_at Expression name.now }
{
    match name {
        "key" | "operator" => with_shape(Shape::Text),
        "values" => with_shape(Shape::TextList),
        _ => with_shape(Shape::Anything),
    }
}

fn template_member(name: &str) -> Property
    ensures { result ≡ property_at Template name.now }
{
    match name {
        "metadata" => with_shape(Shape::Object(Schema::TemplateMetadata)),
        "spec" => with_shape(Shape::Object(Schema::Unknown)),
        _ => with_shape(Shape::Anything),
    }
}

fn template_metadata_member(name: &str) -> Property
    ensures { result ≡ property_at TemplateMetadata name.now }
{
    match name {
        "labels" | "annotations" => unless_empty(Shape::Object(Schema::Texts)),
        "finalizers" => unless_empty(Shape::TextList),
        _ => with_shape(Shape::Anything),
    }
}

fn strategy_member(name: &str) -> Property
    ensures { result ≡ property_at Strategy name.now }
{
    match name {
        "type" => with_shape(Shape::Text),
        "rollingUpdate" => with_shape(Shape::Object(Schema::Unknown)),
        _ => with_shape(Shape::Anything),
    }
}

fn delete_options_member(name: &str) -> Property
    ensures { result ≡ property_at DeleteOptions name.now }
{
    match name {
        "preconditions" => with_shape(Shape::Object(Schema::Preconditions)),
        "propagationPolicy" => with_shape(Shape::Text),
        "dryRun" | "orphanDependents" => with_shape(Shape::Nothing),
        _ => with_shape(Shape::Anything),
    }
}

fn preconditions_member(name: &str) -> Property
    ensures { result ≡ property_at Preconditions name.now }
{
    match name {
        "uid" | "resourceVersion" => with_shape(Shape::Text),
        _ => with_shape(Shape::Anything),
    }
}

fn root_member(kind: Kind, name: &str) -> Property
    ensures { result ≡ property_at (Root kind) name.now }
{
    match name {
        "apiVersion" => with_shape(Shape::VersionOf(kind)),
        "kind" => with_shape(Shape::NameOf(kind)),
        "metadata" => with_shape(Shape::Object(Schema::Metadata)),
        "data" => match kind {
            Kind::ConfigMap => with_shape(Shape::Object(Schema::Texts)),
            _ => with_shape(Shape::Anything),
        },
        "spec" => match kind {
            Kind::ConfigMap => with_shape(Shape::Anything),
            Kind::Pod => with_shape(Shape::Object(Schema::PodSpec)),
            Kind::ReplicaSet => with_shape(Shape::Object(Schema::ReplicaSetSpec)),
            Kind::Deployment => with_shape(Shape::Object(Schema::DeploymentSpec)),
        },
        "status" => match kind {
            Kind::ConfigMap => with_shape(Shape::Anything),
            Kind::Pod => with_shape(Shape::Object(Schema::PodStatus)),
            Kind::ReplicaSet => with_shape(Shape::Object(Schema::ReplicaSetStatus)),
            Kind::Deployment => with_shape(Shape::Object(Schema::DeploymentStatus)),
        },
        _ => with_shape(Shape::Anything),
    }
}

/// Returns the shape of the member `name` of an object with this schema, and whether an empty one counts as absent.
pub fn property_at(schema: Schema, name: &str) -> Property
    ensures { result ≡ property_at schema name.now }
{
    match schema {
        Schema::Root(kind) => root_member(kind, name),
        Schema::Texts => with_shape(Shape::Text),
        Schema::Unknown => with_shape(Shape::Anything),
        Schema::Metadata => metadata_member(name),
        Schema::OwnerReference => owner_reference_member(name),
        Schema::PodSpec => pod_spec_member(name),
        Schema::PodStatus => pod_status_member(name),
        Schema::Condition => condition_member(name),
        Schema::ReplicaSetSpec => replica_set_spec_member(name),
        Schema::ReplicaSetStatus => replica_set_status_member(name),
        Schema::DeploymentSpec => deployment_spec_member(name),
        Schema::DeploymentStatus => deployment_status_member(name),
        Schema::Selector => selector_member(name),
        Schema::Expression => expression_member(name),
        Schema::Template => template_member(name),
        Schema::TemplateMetadata => template_metadata_member(name),
        Schema::Strategy => strategy_member(name),
        Schema::DeleteOptions => delete_options_member(name),
        Schema::Preconditions => preconditions_member(name),
    }
}
