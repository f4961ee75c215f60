//! Objects for the tests: the ReplicaSet `web`, and Pods that it controls.
use informer::Informer;
use meta::Object;
use object_keys::Key;
use reconcile_types::Entry;
use reflector::{Delta, SharedObject};
use serde_json::Value;
use spec_api::kinds::Kind;
use std::alloc::{AllocError, Global};
use std::sync::Wait;

/// The ReplicaSet `web` of the Deployment `site`.
pub(crate) const WEB: &str =
    "{\"metadata\":{\"name\":\"web\",\"namespace\":\"default\",\"resourceVersion\":\"4\",\"uid\":\"u-web\",\"ownerReferences\":[{\"apiVersion\":\"apps/v1\",\"controller\":true,\"kind\":\"Deployment\",\"name\":\"site\",\"uid\":\"u-site\"}]},\"spec\":{\"selector\":{\"matchLabels\":{\"app\":\"web\"}}}}";

/// The Pod `p`, which `web` controls.
pub(crate) const POD: &str =
    "{\"metadata\":{\"name\":\"p\",\"namespace\":\"default\",\"resourceVersion\":\"5\",\"uid\":\"u-p\",\"ownerReferences\":[{\"apiVersion\":\"apps/v1\",\"controller\":true,\"kind\":\"ReplicaSet\",\"name\":\"web\",\"uid\":\"u-web\"}]}}";

/// The Pod `p` when it was released: it has labels, and no owner.
pub(crate) const RELEASED: &str =
    "{\"metadata\":{\"name\":\"p\",\"namespace\":\"default\",\"resourceVersion\":\"6\",\"uid\":\"u-p\",\"labels\":{\"app\":\"web\"}}}";

/// The Pod `q` of another namespace, which `web` controls.
pub(crate) const ELSEWHERE: &str =
    "{\"metadata\":{\"name\":\"q\",\"namespace\":\"other\",\"resourceVersion\":\"7\",\"uid\":\"u-q\",\"ownerReferences\":[{\"apiVersion\":\"apps/v1\",\"controller\":true,\"kind\":\"ReplicaSet\",\"name\":\"web\",\"uid\":\"u-web\"}]}}";

/// The object of a kind that a text says. The text is one that can be read.
pub(crate) fn object(alloc: Global, kind: Kind, text: &str) -> Result<Object, AllocError> {
    let Ok(value) = Value::from_str(alloc, text) else {
        return Err(AllocError);
    };
    let Ok(object) = Object::from_value(alloc, kind, value) else {
        return Err(AllocError);
    };
    Ok(object)
}

/// The object of a kind that a text says, as it is shared.
pub(crate) fn shared(alloc: Global, kind: Kind, text: &str) -> Result<SharedObject, AllocError> {
    SharedObject::new(alloc, object(alloc, kind, text)?)
}

/// The delta that lists the objects of a kind that texts say, at a revision.
pub(crate) fn listing(
    alloc: Global,
    kind: Kind,
    revision: u64,
    texts: &[&str],
) -> Result<Delta, AllocError> {
    let mut objects = Vec::new(alloc);
    for text in texts {
        objects.push(shared(alloc, kind, text)?)?;
    }
    Ok(Delta::Replace(revision, objects))
}

/// The delta that puts the Pod that a text says.
pub(crate) fn put(alloc: Global, text: &str) -> Result<Delta, AllocError> {
    Ok(Delta::Put(shared(alloc, Kind::Pod, text)?))
}

/// The delta that puts a Pod `p` at a revision.
pub(crate) fn put_at(alloc: Global, revision: u64) -> Result<Delta, AllocError> {
    let text = format!(in alloc;
        "{{\"metadata\":{{\"name\":\"p\",\"namespace\":\"default\",\"resourceVersion\":\"{revision}\",\"uid\":\"u-p\"}}}}"
    )?;
    put(alloc, text.as_str())
}

/// The key of a Pod.
pub(crate) fn pod(alloc: Global, namespace: &str, name: &str) -> Result<Key, AllocError> {
    Ok(Key {
        kind: Kind::Pod,
        namespace: String::from_str(alloc, namespace)?,
        name: String::from_str(alloc, name)?,
    })
}

/// Appends a delta to those that an informer publishes next.
fn append(informer: &mut Informer, delta: Delta) -> Result<(), AllocError> {
    match informer.append(delta) {
        Ok(()) => Ok(()),
        Err(_delta) => Err(AllocError),
    }
}

/// Publishes a delta, and returns how many shifts there were.
pub(crate) fn publish<R: Wait>(
    rt: &R,
    informer: &mut Informer,
    delta: Delta,
) -> Result<usize, AllocError> {
    append(informer, delta)?;
    Ok(informer.publish(rt)?.len())
}

/// The delta that removes a Pod at a revision.
pub(crate) fn remove(
    alloc: Global,
    revision: u64,
    namespace: &str,
    name: &str,
) -> Result<Delta, AllocError> {
    Ok(Delta::Remove(revision, pod(alloc, namespace, name)?))
}

/// Adds the names of entries to a text, if there was memory for them, with a blank after each, and a comma in the end.
pub(crate) fn tell(
    text: &mut String,
    entries: Result<Vec<Entry<'_>>, AllocError>,
) -> Result<(), AllocError> {
    for entry in &entries? {
        text.push_str(entry.key.name.as_str())?;
        text.push(' ')?;
    }
    text.push(',')
}
