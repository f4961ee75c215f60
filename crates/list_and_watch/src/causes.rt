//! Why a publish is given to a sink.
ghost use Rattle.std.specs.Prelude.{◌≡◌};
ghost use Rattle.list_and_watch.specs.Causes.{cause_after};

/// Why a publish is given to a sink.
#[derive(Clone, Copy, PartialEq, Eq)]
pub enum Cause {
    /// It is the first that the sink takes: what is there at first.
    FirstList,
    /// It is not the first, and a whole list is among what it publishes. What was made and removed since the publish before it shows in no change.
    LaterList,
    /// It is not the first, and all that it publishes are changes.
    Changes,
}

impl Cause {
    /// Returns the cause of the next publish, by whether a whole list is among what it publishes, where this was that of the last one; it stays the
    /// first until it is taken.
    pub(crate) fn after(self, has_list: bool) -> Cause
        ensures { result ≡ cause_after self has_list }
    {
        match self {
            Cause::FirstList => Cause::FirstList,
            Cause::LaterList | Cause::Changes => if has_list {
                Cause::LaterList
            } else {
                Cause::Changes
            },
        }
    }
}
