//! Frames as lines of text.
ghost use Rattle.std.specs.Prelude.{◌≡◌, IfOk, false, string_bytes};
ghost use Rattle.serde_json.specs.View.{view};
ghost use Rattle.serde_json.specs.Data.{object};
ghost use Rattle.serde_json.specs.Written.{has_float};
ghost use Rattle.spec_api.specs.Frames.{kind_text, frame_text, bookmark_metadata, bookmark_data, bookmark_frame, error_frame};
ghost use Rattle.spec_api.specs.declared.frames.FrameKind.TheVariants.{Added};
ghost use Rattle.object_keys.specs.Faults.{refusal_of};
ghost use Rattle.framing.specs.Events.{event_seen};
ghost use Rattle.framing.specs.Texts.{framed_text, IsWithin, ReadsAs};

use meta::{Event, StoredObject};
use object_keys::Fault;
use serde_json::{Value, json};
use spec_api::frames::FrameKind;
use spec_api::kinds::Kind;
use std::alloc::{AllocError, Global};

/// Returns the line of a frame whose object has this text.
fn framed(alloc: Global, kind: FrameKind, object: &str) -> Result<String, AllocError>
    ensures { IfOk result (λ t. string_bytes t ≡ framed_text (kind_text kind) object.now) }
{
    let mut line = String::with_capacity(alloc, object.len().saturating_add(32))?;
    line.push_str("{\"object\":")?;
    line.push_str(object)?;
    line.push_str(",\"type\":\"")?;
    line.push_str(kind.text())?;
    line.push_str("\"}\n")?;
    Ok(line)
}

/// Returns the line of a frame with this object.
fn line_of(alloc: Global, kind: FrameKind, object: &Value) -> Result<String, AllocError>
    requires { has_float (view object.now) ≡ false }
    ensures text { IfOk result (λ t. string_bytes t ≡ frame_text (record { kind = kind; object = view object.now })) }
    ensures reads_back { IfOk result (λ t. IsWithin (record { kind = kind; object = view object.now })
        → ReadsAs (string_bytes t) (record { kind = kind; object = view object.now })) }
{
    let text = object.to_string(alloc)?;
    let line = framed(alloc, kind, text.as_str())?;
    Ok(line)
}

/// Returns the line of a frame with a stored object.
fn object_text(alloc: Global, kind: FrameKind, object: &StoredObject) -> Result<String, AllocError>
    ensures text { IfOk result (λ t. string_bytes t ≡ frame_text (record { kind = kind; object = object.now.value })) }
    ensures reads_back { IfOk result (λ t. IsWithin (record { kind = kind; object = object.now.value })
        → ReadsAs (string_bytes t) (record { kind = kind; object = object.now.value })) }
{
    let text = object.to_text(alloc)?;
    let line = framed(alloc, kind, text.as_str())?;
    Ok(line)
}

/// Returns the line of an event: ADDED, MODIFIED or DELETED, and an object. The error is running out of memory.
pub fn frame_text(alloc: Global, event: &Event) -> Result<String, AllocError>
    ensures text { IfOk result (λ t. string_bytes t ≡ frame_text (event_seen event.now)) }
    ensures reads_back { IfOk result (λ t. IsWithin (event_seen event.now)
        → ReadsAs (string_bytes t) (event_seen event.now)) }
{
    object_text(alloc, event.kind.frame_kind(), &event.object)
}

/// Returns the line of an object that is there when a watch begins: ADDED, and the object. The error is running out of memory.
pub fn added_text(alloc: Global, object: &StoredObject) -> Result<String, AllocError>
    ensures text { IfOk result (λ t. string_bytes t ≡ frame_text (record { kind = Added; object = object.now.value })) }
    ensures reads_back { IfOk result (λ t. IsWithin (record { kind = Added; object = object.now.value })
        → ReadsAs (string_bytes t) (record { kind = Added; object = object.now.value })) }
{
    object_text(alloc, FrameKind::Added, object)
}

/// Returns the metadata of a bookmark.
fn bookmark_metadata(alloc: Global, closing: bool, revision: u64) -> Result<Value, AllocError>
    ensures { IfOk result (λ v. view v ≡ object (bookmark_metadata closing revision)) }
{
    let digits = revision.to_string(alloc)?;
    if closing {
        json!(in alloc; {
            "annotations": {"k8s.io/initial-events-end": "true"},
            "resourceVersion": digits
        })
    } else {
        json!(in alloc; {"resourceVersion": digits})
    }
}

/// Returns the object of a bookmark.
fn bookmark(alloc: Global, kind: Kind, closing: bool, revision: u64) -> Result<Value, AllocError>
    ensures { IfOk result (λ v. view v ≡ bookmark_data kind closing revision) }
{
    let metadata = bookmark_metadata(alloc, closing, revision)?;
    let version = Value::try_from_str(alloc, kind.api_version())?;
    let name = Value::try_from_str(alloc, kind.name())?;
    json!(in alloc; {"apiVersion": version, "kind": name, "metadata": metadata})
}

/// Returns the line of a bookmark; the one that closes the initial events has an annotation that says so. The error is running
/// out of memory.
pub fn bookmark_text(
    alloc: Global,
    kind: Kind,
    closing: bool,
    revision: u64,
) -> Result<String, AllocError>
    ensures text { IfOk result (λ t. string_bytes t ≡ frame_text (bookmark_frame kind closing revision)) }
    ensures reads_back { IfOk result (λ t. ReadsAs (string_bytes t) (bookmark_frame kind closing revision)) }
{
    let object = bookmark(alloc, kind, closing, revision)?;
    let line = line_of(alloc, FrameKind::Bookmark, &object)?;
    Ok(line)
}

/// Returns the line of an error, whose object is the fault's Status. The error is running out of memory.
pub fn error_text(alloc: Global, fault: &Fault) -> Result<String, AllocError>
    ensures text { IfOk result (λ t. string_bytes t ≡ frame_text (error_frame (refusal_of fault.now))) }
    ensures reads_back { IfOk result (λ t. IsWithin (error_frame (refusal_of fault.now))
        → ReadsAs (string_bytes t) (error_frame (refusal_of fault.now))) }
{
    let status = reply::body(alloc, fault)?;
    let line = line_of(alloc, FrameKind::Error, &status)?;
    Ok(line)
}
