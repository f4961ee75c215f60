//! Changes of a publish, handled at the board.
ghost use Rattle.std.specs.Prelude.{◌≡◌, ◌<◌, ◌≤◌, IfOk, OnOk, OnErr, map, take, drop, length, []};
ghost use Rattle.work_board.specs.Seen.{observation_of};
ghost use Rattle.spec_client_go.specs.OwedKeys.{keys_of};
ghost use Rattle.indexer.specs.Shifted.{shift_of};
ghost use Rattle.spec_sim.specs.ControlPlanes.{change_of};
ghost use Rattle.spec_sim.specs.PodObservations.{observations};
ghost use Rattle.control_desk.specs.Calls.{IsCall, Nothing};
ghost use Rattle.control_desk.specs.Desks.{known, IsPassAt};
ghost use Rattle.control_desk.specs.Steps.{changing};
ghost use Rattle.reconcile_types.specs.Hands.{looks_of};
ghost use Rattle.object_keys.specs.WorkKeys.{work_key_of};
ghost use Rattle.list_and_watch.specs.Causes.{is_first};
ghost use Rattle.manager.specs.Handled.{step_of, HasWaited, Handles, StopsAt, Adds, StopsAdding, HandlesBy, StopsBy};

use crate::origins::Origin;
use crate::relisting::keys_again;
use control_desk::{ControlDesk, WorkPass};
use event_handlers::{keys_of, object_in, observations};
use indexer::{Indexed, Shift};
use list_and_watch::Cause;
use object_keys::{PerKind, WorkKey};
use std::alloc::{AllocError, Global};
use std::sync::Wait;
use work_board::Observation;

/// How many keys are added in one step at most, so that the board is not taken for long.
const PIECE: usize = 256;

/// Returns the piece of keys that follows the first so many, some of which are left.
fn next_piece(keys: &[WorkKey], added: usize) -> &[WorkKey]
    requires { added < length keys.now }
    ensures part { result.now ≡ take (length result.now) (drop added keys.now) }
    ensures some { (0 < length result.now) × (length result.now ≤ 256) }
{
    let left = keys.split_at(added).1;
    left.split_at(left.len().min(PIECE)).0
}

/// By what the changes of a publish are handled.
#[derive(Drop)]
pub(crate) struct Handling<'a, R> {
    pub(crate) rt: &'a R,
    pub(crate) alloc: Global,
    pub(crate) desk: &'a ControlDesk,
    /// What is published of all kinds.
    pub(crate) looks: &'a PerKind<Indexed>,
    /// Where they come from.
    pub(crate) origin: Origin,
}

impl<R: Wait> Handling<'_, R> {
    /// Returns what a change shows of the pods that are expected: nothing, where it is of the first list.
    fn seen(&self, shift: &Shift) -> Result<Vec<Observation>, AllocError>
        ensures { IfOk result (λ v. map observation_of v.items
            ≡ observations (record { shift = shift_of shift.now; is_in_initial_list = is_first self.now.origin.cause })) }
    {
        match self.origin.cause {
            Cause::FirstList => Ok(Vec::new(self.alloc)),
            Cause::LaterList | Cause::Changes => observations(self.alloc, shift),
        }
    }

    /// Returns the keys that a change owes.
    fn owed(&self, shift: &Shift) -> Result<Vec<WorkKey>, AllocError>
        ensures { IfOk result (λ v. map work_key_of v.items ≡ keys_of (change_of (shift_of shift.now)) (looks_of (λ m. m) self.now.looks.now)) }
    {
        keys_of(
            self.alloc,
            shift.key.kind,
            object_in(&shift.old),
            object_in(&shift.new),
            self.looks,
        )
    }

    /// Handles a change at the board, in one step: what it shows of the pods that are expected is noted, and the keys that it owes wait. The
    /// step says of which kind it is, and at which revision its map. A change of the first list shows no pod. The error is running out of memory, and changes nothing there.
    fn handle(&self, pass: &mut WorkPass, shift: &Shift) -> Result<(), AllocError>
        requires { IsPassAt self.now.desk.now pass.old }
        ensures pass { IsPassAt self.now.desk.now pass.new }
        ensures ok { OnOk result (IsCall (known pass.old)
            (changing (step_of self.now.origin self.now.looks.now (shift_of shift.now))) Nothing (known pass.new)) }
        ensures err { OnErr result (HasWaited (known pass.old) (known pass.new)) }
    {
        let seen = self.seen(shift)?;
        let keys = self.owed(shift)?;
        let Origin { kind, revision, .. } = self.origin;
        self.desk.observe(
            self.rt,
            pass,
            kind,
            revision,
            seen.as_slice(),
            keys.as_slice(),
        )
    }

    /// Handles the changes but the first so many, one after another, and counts them. The error is running out of memory at one of them:
    /// those before it are handled and counted, and it is not.
    pub(crate) fn handle_rest(
        &self,
        pass: &mut WorkPass,
        handled: &mut usize,
        shifts: &[Shift],
    ) -> Result<(), AllocError>
        requires { IsPassAt self.now.desk.now pass.old }
        ensures pass { IsPassAt self.now.desk.now pass.new }
        ensures ok { OnOk result (Handles self.now.origin self.now.looks.now
            (drop handled.old (map shift_of shifts.now)) (known pass.old) (known pass.new)) }
        ensures all { OnOk result (drop handled.new (map shift_of shifts.now) ≡ []) }
        ensures err { OnErr result (StopsAt self.now.origin self.now.looks.now
            (drop handled.old (map shift_of shifts.now)) (drop handled.new (map shift_of shifts.now)) (known pass.old) (known pass.new)) }
    {
        while let Some(shift) = shifts.get(*handled) {
            self.handle(pass, shift)?;
            *handled += 1;
        }
        Ok(())
    }

    /// Adds keys but the first so many, piece after piece, and counts them. The error is running out of memory at one of the pieces: those before it
    /// are added and counted, and it is not.
    pub(crate) fn add_rest(
        &self,
        pass: &mut WorkPass,
        added: &mut usize,
        keys: &[WorkKey],
    ) -> Result<(), AllocError>
        requires { IsPassAt self.now.desk.now pass.old }
        ensures pass { IsPassAt self.now.desk.now pass.new }
        ensures ok { OnOk result (Adds self.now.origin (drop added.old (map work_key_of keys.now)) (known pass.old) (known pass.new)) }
        ensures err { OnErr result (StopsAdding self.now.origin (drop added.old (map work_key_of keys.now)) (drop added.new (map work_key_of keys.now))
            (known pass.old) (known pass.new)) }
    {
        while *added < keys.len() {
            let piece = next_piece(keys, *added);
            let Origin { kind, revision, .. } = self.origin;
            self.desk
                .observe(self.rt, pass, kind, revision, &[], piece)?;
            *added += piece.len();
        }
        Ok(())
    }

    /// Handles the changes but the first so many, and then adds the keys that are looked at again but the first so many, and counts both. The error is
    /// running out of memory: what was handled is counted.
    pub(crate) fn handle_all(
        &self,
        pass: &mut WorkPass,
        handled: &mut usize,
        added: &mut usize,
        shifts: &[Shift],
    ) -> Result<(), AllocError>
        requires { IsPassAt self.now.desk.now pass.old }
        ensures pass { IsPassAt self.now.desk.now pass.new }
        ensures ok { OnOk result (HandlesBy self.now.origin self.now.looks.now (drop handled.old (map shift_of shifts.now)) added.old
            (known pass.old) (known pass.new)) }
        ensures err { OnErr result (StopsBy self.now.origin self.now.looks.now (map shift_of shifts.now) handled.old added.old
            (known pass.old) (known pass.new) handled.new added.new) }
    {
        self.handle_rest(pass, handled, shifts)?;
        let keys = keys_again(self.alloc, self.origin.cause, self.looks)?;
        self.add_rest(pass, added, keys.as_slice())
    }
}
