//! What requests name, beside what is there.
ghost use Rattle.std.specs.Prelude.{◌≡◌, option_map};
ghost use Rattle.spec_api.specs.Metadata.{differs, is_other};
ghost use Rattle.spec_api.specs.Verbs.{names_path};
ghost use Rattle.object_keys.specs.Keys.{key_of};
ghost use Rattle.verb_parts.specs.Naming.{mismatch};

use meta::Object;
use object_keys::Key;
use spec_api::refusals::Mismatch;

/// Returns whether a text is named, and is another than this one.
pub fn is_other(named: Option<&str>, text: &str) -> bool
    ensures { result ≡ is_other (option_map (λ s. s.now) named.entry) text.now }
{
    match named {
        Some(given) => given != text,
        None => false,
    }
}

/// Returns whether a text is named, and the object has another one, or none.
fn differs(named: Option<&str>, existing: Option<&str>) -> bool
    ensures { result ≡ differs (option_map (λ s. s.now) named.entry) (option_map (λ s. s.now) existing.entry) }
{
    match (named, existing) {
        (None, _) => false,
        (Some(_), None) => true,
        (Some(text), Some(other)) => text != other,
    }
}

/// Returns whether an object has the name of the one in the path, and no other namespace.
pub fn names_path(key: &Key, object: &Object) -> bool
    ensures { result ≡ names_path (key_of key.now) object.now.value }
{
    let elsewhere = is_other(object.namespace(), key.namespace.as_str());
    !elsewhere && !differs(Some(key.name.as_str()), object.name())
}

/// Returns in what the stored object is another than the one that a body names: by its uid first, then by its version.
pub fn mismatch(object: &Object, existing: &Object) -> Option<Mismatch>
    ensures { result ≡ mismatch object.now.value existing.now.value }
{
    if differs(object.uid(), existing.uid()) {
        return Some(Mismatch::Uid);
    }
    if differs(object.resource_version(), existing.resource_version()) {
        return Some(Mismatch::Modified);
    }
    None
}
