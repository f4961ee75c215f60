//! Laws of the changes between two published maps.
ghost use Rattle.sim_rest_laws.specs.ShiftRunLaws.{PublishedChangesLead};

/// Whatever steps are taken without a restart, as long as no delta but the first of a kind gives the whole map, the changes that were
/// published between two points lead from what was published at the one to what was at the other.
pub fn published_changes_lead()
    ensures { PublishedChangesLead }
{}
