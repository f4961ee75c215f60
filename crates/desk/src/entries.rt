//! What happens to a store. No value is ever made: it is what the proofs speak of.
use meta::Write;
use std::marker::Model;

/// A write, or without one a compaction to a revision.
pub struct StoreEntry {
    write: Option<Write>,
    revision: u64,
}

impl Drop for StoreEntry {
    // Called where one is dropped; a derived drop is proved anew at each such place.
    fn drop(self) {
        let StoreEntry {
            write: _write,
            revision: _revision,
        } = self;
    }
}

impl Model for StoreEntry {
    ghost use Rattle.std.specs.Prelude.{option_map};
    ghost use Rattle.model_encodings.specs.HistoryCodes.{coded_entry};
    ghost use Rattle.spec_api.specs.History as history;
    ghost use Rattle.meta.specs.Writes.{write_of};
    ghost use Rattle.desk.specs.Entries.{entry_of};

    ghost Value = { history.Entry };

    ghost coded = { coded_entry };

    ghost view = { λ e. entry_of (option_map write_of e.write) e.revision };
}
