//! Which requests can be asked over HTTP.
ghost use Rattle.std.specs.Prelude.{◌≡◌, option_map, string_bytes};
ghost use Rattle.std.specs.List.{list_all};
ghost use Rattle.serde_json.specs.View.{view};
ghost use Rattle.object_keys.specs.Keys.{key_of};
ghost use Rattle.lifecycle.specs.Options.{options_seen};
ghost use Rattle.request_parts.specs.Requests.{request_of};
ghost use Rattle.request_encoding.specs.Texts.{is_of_segment, is_segment, is_address, is_shallow, is_named, are_named, can_be_told};

use json_values::values::nests_within;
use lifecycle::DeleteOptions;
use metadata_values::is_namespace;
use object_keys::Key;
use request_parts::Request;
use serde_json::Value;

/// How deep JSON is read.
const DEEPEST: u32 = 127;

/// Returns whether a byte can stand in a segment of a path: it is no blank, no control character, no `?` and no `/`.
fn is_of_segment(byte: u8) -> bool
    ensures { result ≡ is_of_segment byte }
{
    byte > 32 && byte != 127 && byte != b'?' && byte != b'/'
}

/// Returns whether each byte can stand in a segment of a path.
fn has_segment_bytes(text: &str) -> bool
    ensures { result ≡ list_all is_of_segment text.now }
{
    text.bytes().all(|byte| is_of_segment(byte))
}

/// Returns whether a text can be a segment of a path: it has a byte, and each can stand there.
pub fn is_segment(text: &str) -> bool
    ensures { result ≡ is_segment text.now }
{
    !text.is_empty() && has_segment_bytes(text)
}

/// Returns whether a path can name the object under a key.
pub fn is_address(key: &Key) -> bool
    ensures { result ≡ is_address (key_of key.now) }
{
    is_namespace(key.namespace.as_str()) && is_segment(key.name.as_str())
}

/// Returns whether JSON nests no deeper than it is read.
fn is_shallow(value: &Value) -> bool
    ensures { result ≡ is_shallow (view value.now) }
{
    nests_within(value, DEEPEST)
}

/// Returns whether a text is not empty, where there is one.
fn is_named(text: &Option<String>) -> bool
    ensures { result ≡ is_named (option_map string_bytes text.now) }
{
    match text {
        Some(text) => !text.is_empty(),
        None => true,
    }
}

/// Returns whether the texts that a delete names are not empty.
fn are_named(options: &DeleteOptions) -> bool
    ensures { result ≡ are_named (options_seen options.now) }
{
    is_named(&options.uid) && is_named(&options.version)
}

/// Returns whether a request can be asked over HTTP: it is of one object, which a path can name, or of its status, where its kind has
/// one; its body nests no deeper than JSON is read; and a delete names no empty text.
pub fn can_be_told(request: &Request) -> bool
    ensures { result ≡ can_be_told (request_of request.now) }
{
    match request {
        Request::Get(key) => is_address(key),
        Request::List(_) => false,
        Request::Create(_, namespace, object) => {
            is_namespace(namespace.as_str()) && is_shallow(object)
        }
        Request::Update(key, object) => is_address(key) && is_shallow(object),
        Request::UpdateStatus(key, object) => {
            is_address(key) && key.kind.has_status() && is_shallow(object)
        }
        Request::Patch(key, patch) => is_address(key) && is_shallow(patch),
        Request::Delete(key, options) => is_address(key) && are_named(options),
    }
}
