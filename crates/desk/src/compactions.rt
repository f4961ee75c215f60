//! Compactions of a desk's server.
ghost use Rattle.std.specs.Prelude.{◌≡◌, Some};
ghost use Rattle.baton.specs.Marks.{entries};
ghost use Rattle.spec_api.specs.History.{compaction};
ghost use Rattle.desk.specs.Desks.{known, IsPassAt, IsHolding};
ghost use Rattle.desk.specs.Steps.{Step, after_give};
ghost use Rattle.desk.specs.Told.{once_ok, Compacts};

use crate::askings::Asking;
use crate::desks::{Desk, StorePass};
use crate::entries::StoreEntry;
use crate::steps;
use baton::{EntryMade, Held};
use object_keys::Fault;
use server::Server;
use std::marker::Brand;
use std::sync::Wait;

impl<A: Asking> Desk<A> {
    /// Serves nothing below a revision any more. The pass has then seen all that had happened, and the compaction. The error
    /// is a revision above the present one, and compacts nothing.
    pub fn compact<R: Wait>(&self, rt: &R, pass: &mut StorePass, revision: u64) -> Result<(), Fault>
        requires { IsPassAt self.now pass.old }
        ensures pass { IsPassAt self.now pass.new }
        ensures compact { Step A.MayAsk (known pass.old) (λ h. once_ok result (Some (compaction revision)))
            (λ h. Compacts h revision result) (known pass.new) }
    {
        let held = self.take(rt, pass);
        self.compact_held::<Brand, R>(rt, pass, held, revision)
    }

    /// Compacts the server that the pass holds, and gives it back.
    fn compact_held<M: EntryMade<StoreEntry>, R: Wait>(
        &self,
        rt: &R,
        pass: &mut StorePass,
        held: Held<Server>,
        revision: u64,
    ) -> Result<(), Fault>
        requires pass { IsHolding self.now pass.old held }
        requires entry { M.entry ≡ Some (compaction revision) }
        ensures pass { IsPassAt self.now pass.new }
        ensures answer { Compacts (entries (known pass.old).seen) revision result }
        ensures known { known pass.new ≡ after_give (known pass.old) (once_ok result M.entry) }
    {
        let mut held = held;
        match steps::compact(&mut held, revision) {
            Ok(()) => {
                self.baton.give::<M, R>(rt, pass, held);
                Ok(())
            }
            Err(fault) => {
                self.give_back(rt, pass, held);
                Err(fault)
            }
        }
    }
}
