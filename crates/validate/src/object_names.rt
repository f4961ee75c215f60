//! Names, given and made.
ghost use Rattle.std.specs.Prelude.{◌≡◌};
ghost use Rattle.std.specs.List.{list_all};
ghost use Rattle.spec_api.specs.Checks.{generates, is_generating_byte, is_generate_name_valid, is_name_valid};

use meta::Object;
use metadata_values::is_subdomain;

/// Returns whether the object has a name that objects may have, or asks for one to be made.
pub(crate) fn is_name_valid(object: &Object) -> bool
    ensures { result ≡ is_name_valid object.now.value }
{
    match object.name() {
        Some(name) => is_subdomain(name),
        None => object.generate_name().is_some(),
    }
}

fn is_generating_byte(byte: u8) -> bool
    ensures { result ≡ is_generating_byte byte }
{
    (b'a' <= byte && byte <= b'z') || (b'0' <= byte && byte <= b'9') || byte == b'-' || byte == b'.'
}

fn has_generating_bytes(text: &str) -> bool
    ensures { result ≡ list_all is_generating_byte text.now }
{
    text.bytes().all(|byte| is_generating_byte(byte))
}

fn generates(made: &str, text: &str) -> bool
    ensures { result ≡ generates made.now text.now }
{
    has_generating_bytes(text) && is_subdomain(made)
}

/// Returns whether the name that was made, if one was, could be made, and is valid.
pub(crate) fn is_generate_name_valid(object: &Object, made: &str) -> bool
    ensures { result ≡ is_generate_name_valid made.now object.now.value }
{
    if object.name().is_some() {
        return true;
    }
    match object.generate_name() {
        Some(text) => generates(made, text),
        None => true,
    }
}
