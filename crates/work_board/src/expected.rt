//! Expectations as the side table of a board of work keys.
use crate::observation::Observation;
use boards::SideTable;
use expectations::Table;
use std::alloc::Global;
use std::marker::Model;

/// What is expected, beside the keys of a board.
#[derive(Drop)]
pub(crate) struct Expected {
    table: Table,
}

impl Model for Expected {
    ghost use Rattle.spec_client_go.specs.Expectations as spec;
    ghost use Rattle.expectations.specs.Seen.{table_code};

    ghost Value = { spec.Table };

    ghost coded = { table_code };

    ghost view = { λ e. e.table };
}

impl SideTable for Expected {
    ghost use Rattle.std.specs.FinMap as map;
    ghost use Rattle.spec_client_go.specs.Boards.{lowered};
    ghost use Rattle.work_board.specs.Seen.{observation_of};

    type Note = Observation;

    ghost empty = { map.empty };

    ghost noted = { λ seen t. lowered (observation_of seen) t };

    fn new(alloc: Global) -> Expected {
        Expected {
            table: Table::new(alloc),
        }
    }

    fn note(&mut self, note: &Observation) {
        let table = self.table_mut();
        match note {
            Observation::CreationObserved { owner } => {
                table.created(&owner.key, owner.uid.as_str());
            }
            Observation::DeletionObserved { owner, pod } => {
                table.deleted(&owner.key, owner.uid.as_str(), pod.as_str());
            }
        }
    }
}

impl Expected {
    ghost use Rattle.std.specs.Prelude.{◌≡◌};
    ghost use Rattle.std.specs.Borrow.{Lends, sem};
    ghost use Rattle.expectations.specs.contracts.table.Table.{the_row as table_row};
    ghost use Rattle.work_board.specs.contracts.expected.Expected.{the_row};

    /// Returns the table.
    pub(crate) fn table(&self) -> &Table
        ensures { result.now ≡ self.now }
    {
        &self.table
    }

    /// Returns a reference through which it can be changed.
    pub(crate) fn table_mut(&mut self) -> &mut Table
        ensures value { result.now ≡ self.old }
        ensures* writes_back { sem 𝓛 (Lends the_row table_row self.entry result (λ t. t)) }
    {
        &mut self.table
    }
}
