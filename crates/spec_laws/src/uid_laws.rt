//! Laws of uids.
ghost use Rattle.spec_laws.specs.UidLaws.{FutureUidsAreLater};

/// The uid of an owner is one of the future exactly if only a later create can give it.
pub fn future_uids_are_later()
    ensures { FutureUidsAreLater }
{}
