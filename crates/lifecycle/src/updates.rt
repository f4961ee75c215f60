//! Which update removes an object that is being deleted.
ghost use Rattle.std.specs.Prelude.{◌≡◌};
ghost use Rattle.spec_api.specs.Replacements.{is_finalized};

use meta::Object;

/// Returns whether an update removes the stored object's last finalizer: it is being deleted, and the new object has no
/// finalizer left, so it is removed (Kubernetes, Finalizers).
///
/// Whether it is being deleted is asked of the stored object, since no update begins or ends a deletion; what
/// finalizers are left is asked of the one in its place.
pub fn is_finalized(existing: &Object, object: &Object) -> bool
    ensures { result ≡ is_finalized existing.now.value object.now.value }
{
    existing.is_being_deleted() && object.metadata_member("finalizers").is_none()
}
