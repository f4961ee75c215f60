//! Labels joined by dots.
ghost use Rattle.std.specs.Prelude.{◌≡◌, ◌==◌};
ghost use Rattle.std.specs.List.{list_all, slice_split};
ghost use Rattle.spec_api.specs.Keys.{is_label, is_subdomain};

use crate::labels::is_label;

/// The greatest length of an object's name, in bytes.
const LONGEST: usize = 253;

/// Returns whether the parts of a text, between the dots, are labels. It goes as deep as there are dots: ask it of short texts.
fn are_labels(text: &str) -> bool
    ensures { result ≡ list_all is_label (slice_split (λ b. b == 46) text.now) }
{
    match text.split_once('.') {
        Some((first, rest)) => is_label(first) && are_labels(rest),
        None => is_label(text),
    }
}

/// Returns whether an object can have this name: a DNS subdomain of at most 253 bytes (Kubernetes, Object Names and IDs).
pub fn is_subdomain(text: &str) -> bool
    ensures { result ≡ is_subdomain text.now }
{
    text.len() <= LONGEST && are_labels(text)
}
