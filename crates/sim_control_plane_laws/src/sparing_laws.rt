//! What the garbage collector spares.
ghost use Rattle.sim_control_plane_laws.specs.SparingLaws.{TheCollectorSparesLiveOwners};

/// Over every list of steps, each object that a delete of the collector marks or removes names an owner, and none of those that it
/// names was there and not being deleted; and each object that an update of the collector removes was being deleted already.
pub fn the_collector_spares_live_owners()
    ensures { TheCollectorSparesLiveOwners }
{}
