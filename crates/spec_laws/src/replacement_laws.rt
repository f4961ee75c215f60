//! Laws of objects in the place of others.
ghost use Rattle.spec_laws.specs.ReplacementLaws.{SameButForTheVersion, UpdatesAreAtTheVersion};

/// What an update says is the same as what is stored exactly if nothing differs but the version.
pub fn same_but_for_the_version()
    ensures { SameButForTheVersion }
{}

/// What an update says is compared at the version that is stored, whatever version it names.
pub fn updates_are_at_the_version()
    ensures { UpdatesAreAtTheVersion }
{}
