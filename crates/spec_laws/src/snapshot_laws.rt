//! A law of snapshots.
ghost use Rattle.spec_laws.specs.SnapshotLaws.{SnapshotsFollow};

/// Nothing is there at first, each write makes the next snapshot of the one before, and a compaction changes none: so
/// who has the last snapshot needs none of the writes before it.
pub fn snapshots_follow()
    ensures { SnapshotsFollow }
{}
