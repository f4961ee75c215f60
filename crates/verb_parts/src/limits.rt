//! How long an object may be.
ghost use Rattle.std.specs.Prelude.{◌≡◌, length, nat_lt};
ghost use Rattle.spec_api.specs.Verbs.{longest_object};

/// The greatest length of an object's text, in bytes.
const LONGEST_OBJECT: usize = 1_572_864;

/// Returns whether an object with this text is longer than an object may be.
pub fn is_too_large(text: &str) -> bool
    ensures { result ≡ nat_lt longest_object (length text.now) }
{
    text.len() > LONGEST_OBJECT
}
