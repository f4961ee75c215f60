//! Whether two objects are one.
ghost use Rattle.std.specs.Prelude.{◌≡◌, option_map};
ghost use Rattle.list_and_watch.specs.Recognized.{creation, is_same_text, is_same_write};

use meta::Object;

/// Returns whether both are one text, or neither is there.
pub(crate) fn is_same_text(one: Option<&str>, other: Option<&str>) -> bool
    ensures { result ≡ is_same_text (option_map (λ s. s.now) one.entry) (option_map (λ s. s.now) other.entry) }
{
    match (one, other) {
        (None, None) => true,
        (Some(one), Some(other)) => one == other,
        (None, Some(_)) | (Some(_), None) => false,
    }
}

/// Returns the moment at which an object was created, in text.
pub(crate) fn creation(object: &Object) -> Option<&str>
    ensures { option_map (λ s. s.now) result ≡ creation object.now.value }
{
    object.metadata_member("creationTimestamp")?.as_str()
}

/// Returns whether both are one object, as one write left it.
pub(crate) fn is_same_write(one: &Object, other: &Object) -> bool
    ensures { result ≡ is_same_write one.now.value other.now.value }
{
    is_same_text(one.uid(), other.uid())
        && is_same_text(creation(one), creation(other))
        && is_same_text(one.resource_version(), other.resource_version())
}
