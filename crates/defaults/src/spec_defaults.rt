//! What is filled in where it is absent.
ghost use Rattle.std.specs.Prelude.{◌≡◌, IfOk, codes};
ghost use Rattle.serde_json.specs.View.{view};
ghost use Rattle.spec_api.specs.Defaults.{unsigned_value, with_changed, rolling_defaults, is_rolling_update, with_rolling, strategy_defaults, replica_set_defaults, deployment_defaults, defaulted};
ghost use Rattle.spec_api.specs.Values.{with_default};

use json_values::members::{into_members, take};
use json_values::values::{with_member, with_object, with_text};
use meta::Object;
use serde_json::{Value, json};
use spec_api::kinds::Kind;
use std::alloc::{AllocError, Global};

fn number(alloc: Global, n: u64) -> Result<Value, AllocError>
    ensures { IfOk result (λ v. view v ≡ unsigned_value n) }
{
    json!(in alloc; n)
}

/// Returns the value with a whole number at the member `name`, where it has none.
fn with_number(alloc: Global, value: Value, name: &str, n: u64) -> Result<Value, AllocError>
    ensures { IfOk result (λ v. view v ≡ with_default name.now (unsigned_value n) (view value)) }
{
    if value.get(name).is_some() {
        return Ok(value);
    }
    let inner = number(alloc, n)?;
    with_member(alloc, value, name, inner)
}

fn rolling_defaults(alloc: Global, value: Value) -> Result<Value, AllocError>
    ensures { IfOk result (λ v. view v ≡ rolling_defaults (view value)) }
{
    let value = with_text(alloc, value, "maxSurge", "25%")?;
    with_text(alloc, value, "maxUnavailable", "25%")
}

fn in_rolling(alloc: Global, value: Value) -> Result<Value, AllocError>
    ensures { IfOk result (λ v. view v ≡ with_changed (codes "rollingUpdate") rolling_defaults (view value)) }
{
    if value.get("rollingUpdate").is_none() {
        return Ok(value);
    }
    let mut members = into_members(alloc, value);
    let existing = take(alloc, &mut members, "rollingUpdate")?;
    let filled = rolling_defaults(alloc, existing)?;
    serde_json::put(&mut members, alloc, "rollingUpdate", filled)?;
    Ok(Value::Object(members))
}

fn is_rolling_update(value: &Value) -> bool
    ensures { result ≡ is_rolling_update (view value.now) }
{
    match value.get("type") {
        Some(found) => match found.as_str() {
            Some(name) => "RollingUpdate" == name,
            None => false,
        },
        None => false,
    }
}

fn with_rolling(alloc: Global, value: Value) -> Result<Value, AllocError>
    ensures { IfOk result (λ v. view v ≡ with_rolling (view value)) }
{
    if !is_rolling_update(&value) {
        return Ok(value);
    }
    let value = with_object(alloc, value, "rollingUpdate")?;
    in_rolling(alloc, value)
}

fn strategy_defaults(alloc: Global, value: Value) -> Result<Value, AllocError>
    ensures { IfOk result (λ v. view v ≡ strategy_defaults (view value)) }
{
    let value = with_text(alloc, value, "type", "RollingUpdate")?;
    with_rolling(alloc, value)
}

fn in_strategy(alloc: Global, value: Value) -> Result<Value, AllocError>
    ensures { IfOk result (λ v. view v ≡ with_changed (codes "strategy") strategy_defaults (view value)) }
{
    if value.get("strategy").is_none() {
        return Ok(value);
    }
    let mut members = into_members(alloc, value);
    let existing = take(alloc, &mut members, "strategy")?;
    let filled = strategy_defaults(alloc, existing)?;
    serde_json::put(&mut members, alloc, "strategy", filled)?;
    Ok(Value::Object(members))
}

fn replica_set_defaults(alloc: Global, value: Value) -> Result<Value, AllocError>
    ensures { IfOk result (λ v. view v ≡ replica_set_defaults (view value)) }
{
    with_number(alloc, value, "replicas", 1)
}

fn deployment_defaults(alloc: Global, value: Value) -> Result<Value, AllocError>
    ensures { IfOk result (λ v. view v ≡ deployment_defaults (view value)) }
{
    let value = with_number(alloc, value, "replicas", 1)?;
    let value = with_number(alloc, value, "revisionHistoryLimit", 10)?;
    let value = with_object(alloc, value, "strategy")?;
    in_strategy(alloc, value)
}

fn in_replica_set(alloc: Global, value: Value) -> Result<Value, AllocError>
    ensures { IfOk result (λ v. view v ≡ with_changed (codes "spec") replica_set_defaults (view value)) }
{
    if value.get("spec").is_none() {
        return Ok(value);
    }
    let mut members = into_members(alloc, value);
    let existing = take(alloc, &mut members, "spec")?;
    let filled = replica_set_defaults(alloc, existing)?;
    serde_json::put(&mut members, alloc, "spec", filled)?;
    Ok(Value::Object(members))
}

fn in_deployment(alloc: Global, value: Value) -> Result<Value, AllocError>
    ensures { IfOk result (λ v. view v ≡ with_changed (codes "spec") deployment_defaults (view value)) }
{
    if value.get("spec").is_none() {
        return Ok(value);
    }
    let mut members = into_members(alloc, value);
    let existing = take(alloc, &mut members, "spec")?;
    let filled = deployment_defaults(alloc, existing)?;
    serde_json::put(&mut members, alloc, "spec", filled)?;
    Ok(Value::Object(members))
}

fn defaulted(alloc: Global, kind: Kind, value: Value) -> Result<Value, AllocError>
    ensures { IfOk result (λ v. view v ≡ defaulted kind (view value)) }
{
    match kind {
        Kind::ConfigMap => Ok(value),
        Kind::Pod => Ok(value),
        Kind::ReplicaSet => in_replica_set(alloc, value),
        Kind::Deployment => in_deployment(alloc, value),
    }
}

/// Returns the object with what its spec leaves out (Kubernetes API reference, ReplicaSetSpec and DeploymentSpec). Nothing that
/// it says is copied or changed. The error is running out of memory.
pub fn defaults(alloc: Global, object: Object) -> Result<Object, AllocError>
    ensures value { IfOk result (λ o. o.value ≡ defaulted object.kind object.value) }
    ensures kind { IfOk result (λ o. o.kind ≡ object.kind) }
{
    let kind = object.kind();
    let value = defaulted(alloc, kind, object.into_value())?;
    Ok(Object::from_whole(kind, value))
}
