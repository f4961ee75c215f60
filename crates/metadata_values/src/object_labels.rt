//! The keys and values of objects' labels.
ghost use Rattle.std.specs.Prelude.{◌≡◌};
ghost use Rattle.std.specs.List.{list_all};
ghost use Rattle.spec_api.specs.Labels.{is_alphanumeric, is_name_byte, is_short_name, is_label_key, is_label_value};

use crate::labels::is_letter_or_digit;
use crate::subdomains::is_subdomain;

/// The greatest length of a value, and of a key without what stands before its `/`, in bytes.
const LONGEST: usize = 63;

fn is_alphanumeric(byte: u8) -> bool
    ensures { result ≡ is_alphanumeric byte }
{
    is_letter_or_digit(byte) || (b'A' <= byte && byte <= b'Z')
}

fn is_name_byte(byte: u8) -> bool
    ensures { result ≡ is_name_byte byte }
{
    is_alphanumeric(byte) || byte == b'-' || byte == b'.' || byte == b'_'
}

fn has_name_bytes(text: &str) -> bool
    ensures { result ≡ list_all is_name_byte text.now }
{
    text.bytes().all(|byte| is_name_byte(byte))
}

fn is_short_name(text: &str) -> bool
    ensures { result ≡ is_short_name text.now }
{
    let bytes = text.as_bytes();
    if bytes.is_empty() {
        return false;
    }
    if bytes.len() > LONGEST {
        return false;
    }
    if !has_name_bytes(text) {
        return false;
    }
    if !is_alphanumeric(bytes[0]) {
        return false;
    }
    is_alphanumeric(bytes[bytes.len() - 1])
}

/// Returns whether a label can have this value: at most 63 letters, digits, `-`, `_` and `.`, of which the first and the last
/// are letters or digits (Kubernetes, Labels and Selectors, Syntax and character set).
pub fn is_label_value(text: &str) -> bool
    ensures { result ≡ is_label_value text.now }
{
    text.is_empty() || is_short_name(text)
}

/// Returns whether a label can have this key: 1 to 63 bytes as in a value, before which a DNS subdomain and a `/` can stand.
pub fn is_label_key(text: &str) -> bool
    ensures { result ≡ is_label_key text.now }
{
    match text.split_once('/') {
        Some((prefix, name)) => is_subdomain(prefix) && is_short_name(name),
        None => is_short_name(text),
    }
}
