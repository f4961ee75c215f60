//! What is there under a key.
ghost use Rattle.std.specs.Prelude.{◌≡◌, not, option_map, Some, IfOk};
ghost use Rattle.spec_api.specs.Metadata.{differs};
ghost use Rattle.object_keys.specs.Keys.{key_of};
ghost use Rattle.live_reads.specs.Finding.{Finds, FindsOf, can_be, has_key};

use http_client::statuses::{NOT_FOUND, OK};
use http_client::{Answer, HttpReply};
use meta::Object;
use metadata_values::{is_namespace, is_subdomain};
use object_keys::{Fault, Key};
use serde_json::Value;
use std::alloc::{AllocError, Global};

/// What is known of an object that was asked for.
#[derive(Drop)]
pub enum FoundObject {
    /// It is there.
    Present(Object),
    /// No object is there.
    Absent,
    /// A server replied and says neither.
    Refused,
    /// No whole reply came.
    Unanswered,
}

/// Returns whether an object can have a key: one whose namespace or name could name no object is not asked for.
pub fn can_be(key: &Key) -> bool
    ensures { result ≡ can_be (key_of key.now) }
{
    is_namespace(key.namespace.as_str()) && is_subdomain(key.name.as_str())
}

/// Returns whether a text is named, and is this one.
fn is_named(named: Option<&str>, text: &str) -> bool
    ensures { result ≡ not (differs (Some text.now) (option_map (λ s. s.now) named.entry)) }
{
    match named {
        Some(given) => given == text,
        None => false,
    }
}

/// Returns whether an object has the namespace and the name of a key.
fn has_key(key: &Key, object: &Object) -> bool
    ensures { result ≡ has_key (key_of key.now) object.now.value }
{
    is_named(object.namespace(), key.namespace.as_str())
        && is_named(object.name(), key.name.as_str())
}

/// Returns the object of a key that a text is, if it is that. The error is running out of memory.
fn object_of(alloc: Global, key: &Key, text: &str) -> Result<FoundObject, AllocError>
    ensures { IfOk result (Finds (key_of key.now) OK text.now) }
{
    let value = match Value::from_str(alloc, text) {
        Ok(value) => value,
        Err(error) if error.is_memory() => return Err(AllocError),
        Err(_) => return Ok(FoundObject::Refused),
    };
    match Object::from_value(alloc, key.kind, value) {
        Ok(object) => Ok(if has_key(key, &object) {
            FoundObject::Present(object)
        } else {
            FoundObject::Refused
        }),
        Err(Fault::NoMemory) => Err(AllocError),
        Err(_) => Ok(FoundObject::Refused),
    }
}

/// Returns what a reply says of the object that was asked for by its key. The error is running out of memory.
fn found_in_reply(alloc: Global, key: &Key, reply: &HttpReply) -> Result<FoundObject, AllocError>
    ensures { IfOk result (Finds (key_of key.now) reply.now.code reply.now.body.items) }
{
    match reply.code {
        OK => match str::from_utf8(reply.body.as_slice()) {
            Ok(text) => object_of(alloc, key, text),
            Err(_) => Ok(FoundObject::Refused),
        },
        NOT_FOUND => Ok(FoundObject::Absent),
        _ => Ok(FoundObject::Refused),
    }
}

/// Returns what is known of the object that was asked for by its key: a reply with another object says nothing of it. The error is running out
/// of memory.
pub fn found_in(alloc: Global, key: &Key, answer: &Answer) -> Result<FoundObject, AllocError>
    ensures { IfOk result (FindsOf (key_of key.now) answer.now) }
{
    match answer {
        Answer::Replied(reply) => found_in_reply(alloc, key, reply),
        Answer::NotSent => Ok(FoundObject::Unanswered),
        Answer::Lost => Ok(FoundObject::Unanswered),
    }
}
