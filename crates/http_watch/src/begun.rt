//! What a watch begins with.
ghost use Rattle.std.specs.Prelude.{◌≡◌};

use store::ViewSnapshot;

/// What is there of a view as a watch begins.
pub struct Begun {
    /// The objects, in the order of keys.
    pub objects: ViewSnapshot,
    /// The present revision, after which the watch goes on.
    pub revision: u64,
}

impl Drop for Begun {
    // Called where one is dropped; a derived drop is proved anew at each such place.
    fn drop(self) {
        let Begun {
            objects: _objects,
            revision: _revision,
        } = self;
    }
}

impl Begun {
    /// Gives up the objects.
    pub(crate) fn into_objects(self) -> ViewSnapshot
        ensures { result ≡ self.objects }
    {
        let Begun {
            objects,
            revision: _,
        } = self;
        objects
    }
}
