//! Labels of DNS names.
ghost use Rattle.std.specs.Prelude.{◌≡◌, ◌||◌, ◌==◌};
ghost use Rattle.std.specs.List.{list_all};
ghost use Rattle.spec_api.specs.Keys.{is_letter_or_digit, is_label, is_namespace};

/// The greatest length of a namespace's name, in bytes.
const LONGEST: usize = 63;

/// Returns whether a byte is a small letter or a digit.
pub(crate) fn is_letter_or_digit(byte: u8) -> bool
    ensures { result ≡ is_letter_or_digit byte }
{
    (b'a' <= byte && byte <= b'z') || (b'0' <= byte && byte <= b'9')
}

/// Returns whether each byte can stand in a label.
fn has_label_bytes(text: &str) -> bool
    ensures { result ≡ list_all (λ b. is_letter_or_digit b || (b == 45)) text.now }
{
    text.bytes()
        .all(|byte| is_letter_or_digit(byte) || byte == b'-')
}

/// Returns whether the text is a DNS label of any length (RFC 1123, Host Names and Numbers).
pub fn is_label(text: &str) -> bool
    ensures { result ≡ is_label text.now }
{
    let bytes = text.as_bytes();
    if bytes.is_empty() {
        return false;
    }
    if !has_label_bytes(text) {
        return false;
    }
    if !is_letter_or_digit(bytes[0]) {
        return false;
    }
    is_letter_or_digit(bytes[bytes.len() - 1])
}

/// Returns whether a namespace can have this name: a DNS label of at most 63 bytes.
pub fn is_namespace(text: &str) -> bool
    ensures { result ≡ is_namespace text.now }
{
    is_label(text) && text.len() <= LONGEST
}
