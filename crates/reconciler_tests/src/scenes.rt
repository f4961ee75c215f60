//! What is shown to a reconcile, and what is told of how it went.
use indexer::Indexed;
use meta::Object;
use object_keys::{Key, PerKind};
use reconciler::{Failure, Outcome, Reconciler};
use reflector::{Delta, SharedObject};
use request_parts::Request;
use scripted_api::{Script, ScriptedAnswer, line_of};
use serde_json::Value;
use spec_api::kinds::Kind;
use std::alloc::{AllocError, Global};

/// Returns the object of a kind that a text says. The text is one that can be read.
pub(crate) fn object(alloc: Global, kind: Kind, text: &str) -> Result<Object, AllocError> {
    let Ok(value) = Value::from_str(alloc, text) else {
        return Err(AllocError);
    };
    let Ok(object) = Object::from_value(alloc, kind, value) else {
        return Err(AllocError);
    };
    Ok(object)
}

/// Returns the key of a name in the namespace `default`.
pub(crate) fn key(alloc: Global, kind: Kind, name: &str) -> Result<Key, AllocError> {
    Ok(Key {
        kind,
        namespace: String::from_str(alloc, "default")?,
        name: String::from_str(alloc, name)?,
    })
}

/// Shows an object.
fn show(
    alloc: Global,
    shown: &mut PerKind<Indexed>,
    kind: Kind,
    text: &str,
) -> Result<(), AllocError> {
    let object = SharedObject::new(alloc, object(alloc, kind, text)?)?;
    shown.get_mut(kind).apply(&Delta::Put(object))
}

/// Returns what is shown where just these objects are there.
pub(crate) fn shown(
    alloc: Global,
    objects: &[(Kind, &str)],
) -> Result<PerKind<Indexed>, AllocError> {
    let mut shown = PerKind::made(|_| Indexed::new(alloc));
    for (kind, text) in objects {
        show(alloc, &mut shown, *kind, text)?;
    }
    Ok(shown)
}

/// Returns what an outcome is called.
fn called(alloc: Global, outcome: Outcome) -> Result<String, AllocError> {
    match outcome {
        Outcome::Done => String::from_str(alloc, "done"),
        Outcome::LookAgain { .. } => String::from_str(alloc, "look again"),
        Outcome::Failed(failure) => format!(in alloc; "failed: {failure}"),
    }
}

/// Returns the lines of what a reconcile of a Pod asked, by what is shown, and how it ended.
pub(crate) fn reconciled<C: Reconciler<Key>>(
    alloc: Global,
    controller: &C,
    name: &str,
    objects: &[(Kind, &str)],
    answers: &[ScriptedAnswer<'_>],
) -> Result<String, AllocError> {
    let shown = shown(alloc, objects)?;
    let mut api = Script::new(alloc, answers);
    let key = key(alloc, Kind::Pod, name)?;
    let outcome = controller.reconcile(alloc, &key, &shown, &mut api);
    let mut text = String::new(alloc);
    for line in &api.requests {
        text.push_str(line.as_str())?;
        text.push_str("\n")?;
    }
    text.push_str(called(alloc, outcome)?.as_str())?;
    Ok(text)
}

/// Returns the line of a request, `nothing` where there is none, and why it is not to be asked.
pub(crate) fn told(
    alloc: Global,
    next: Result<Option<Request>, Failure>,
) -> Result<String, AllocError> {
    let request = match next {
        Ok(Some(request)) => request,
        Ok(None) => return String::from_str(alloc, "nothing"),
        Err(failure) => return format!(in alloc; "{failure}"),
    };
    match line_of(alloc, &request)? {
        Some(line) => Ok(line),
        None => String::from_str(alloc, "untold"),
    }
}
