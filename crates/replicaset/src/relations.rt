//! What a pod is to a ReplicaSet: its own, one to be released, one to be adopted, or none of these.
ghost use Rattle.std.specs.Prelude.{◌≡◌};
ghost use Rattle.spec_api.specs.Checks.{requirements};
ghost use Rattle.replicaset.specs.Relations.{is_own_as, relation};

use crate::claims::{is_adoptable, is_owned, matches};
use meta::Object;
use selector::Selector;

/// What a pod is to a ReplicaSet.
#[derive(Clone, Copy)]
pub(crate) enum Relation {
    /// It is the set's, and its labels match.
    Own,
    /// It is the set's, and its labels do not match.
    Released,
    /// It has no controller, and its labels match.
    Adoptable,
    /// Anything else.
    Other,
}

impl Relation {
    /// Returns what a pod is to a set. It takes no memory.
    pub fn of(set: &Object, selector: &Option<Selector>, pod: &Object) -> Relation
        requires { selector.now ≡ requirements set.now.value }
        ensures { result ≡ relation set.now.value pod.now.value }
    {
        if is_owned(set, pod) {
            if matches(set, selector, pod) {
                Relation::Own
            } else if set.is_being_deleted() {
                Relation::Other
            } else {
                Relation::Released
            }
        } else if is_adoptable(set, selector, pod) {
            Relation::Adoptable
        } else {
            Relation::Other
        }
    }

    /// Returns whether it is that of the set's own pods, where the set may adopt pods or may not. It takes no memory.
    pub fn is_own(self, may: bool) -> bool
        ensures { result ≡ is_own_as may self }
    {
        match self {
            Relation::Own => true,
            Relation::Adoptable => may,
            Relation::Released => false,
            Relation::Other => false,
        }
    }
}
