//! A worker that takes one key after another, with a turn for each, until all is to stop.
ghost use Rattle.std.specs.Prelude.{◌≡◌};
ghost use Rattle.control_desk.specs.Desks.{IsPassAt, key_in_hand};
ghost use Rattle.control_desk.specs.Taken.{key_taken};

use crate::gates::Gate;
use crate::looking::Looking;
use crate::tools::Tools;
use api_client::Api;
use control_desk::{ControlDesk, TakenKey, WorkPass};
use reconcile_turn::Turn;
use std::sync::Wait;
use std::time::Clock;

/// How many milliseconds a worker waits for memory.
const PAUSE_MILLISECONDS: u64 = 50;

/// A worker at the board that all share. The key in its hands is the one that its pass took last and has not given back.
#[derive(Drop)]
pub struct Worker<'a, R, L: Drop, A: Drop, G> {
    desk: &'a ControlDesk,
    pass: WorkPass,
    hand: Option<TakenKey>,
    tools: Tools<'a, R, L, A, G>,
    ghost sits: { IsPassAt desk.now pass },
    ghost mine: { key_in_hand pass ≡ key_taken hand },
}

impl<'a, R: Wait + Clock, L: Looking + Drop, A: Api + Drop, G: Gate> Worker<'a, R, L, A, G> {
    ghost use Rattle.std.specs.Prelude.{◌≡◌, None, is_some, true, false};
    ghost use Rattle.control_desk.specs.Desks.{known, IsPassAt, key_in_hand};
    ghost use Rattle.manager_worker.specs.Working.{at_board, Works, IsLeft, WorksUntilStop};

    /// Returns a worker that has no key.
    pub fn new(
        desk: &'a ControlDesk,
        pass: WorkPass,
        tools: Tools<'a, R, L, A, G>,
    ) -> Worker<'a, R, L, A, G>
        requires sits { IsPassAt desk.now pass }
        requires free { key_in_hand pass ≡ None }
    {
        Worker {
            desk,
            pass,
            hand: None,
            tools,
        }
    }

    /// Takes a key, if one waits and the worker has none, and returns whether it has one.
    fn take(&mut self) -> bool
        ensures taken { result ≡ is_some self.new.hand }
        ensures works { Works L.shows A.answers (at_board self.old.hand self.old.tools.listers self.old.tools.api (known self.old.pass))
            (at_board self.new.hand self.new.tools.listers self.new.tools.api (known self.new.pass)) }
    {
        if self.hand.is_some() {
            return true;
        }
        let Worker {
            desk,
            pass,
            hand,
            tools,
        } = self;
        match desk.take_key(tools.rt, pass) {
            Ok(Some(taken)) => {
                *hand = Some(taken);
                true
            }
            Ok(None) => false,
            Err(_) => false,
        }
    }

    /// Takes the turn of the key in its hands, if it has one, and returns true; false where all is to stop before the turn is over. The key is in
    /// its hands until the turn is over.
    fn turn(&mut self) -> bool
        ensures over { result ≡ true → Works L.shows A.answers (at_board self.old.hand self.old.tools.listers self.old.tools.api (known self.old.pass))
            (at_board self.new.hand self.new.tools.listers self.new.tools.api (known self.new.pass)) }
        ensures left { result ≡ false → IsLeft L.shows A.answers (at_board self.old.hand self.old.tools.listers self.old.tools.api (known self.old.pass))
            (at_board self.new.hand self.new.tools.listers self.new.tools.api (known self.new.pass)) }
    {
        let Worker {
            desk,
            pass,
            hand,
            tools,
        } = self;
        let Some(taken) = hand else {
            return true;
        };
        let Ok(copy) = taken.key.try_copy() else {
            tools.signals.stop.rest(tools.rt, PAUSE_MILLISECONDS);
            return true;
        };
        tools.gate.before(&taken.key);
        let turn = Turn::begin(tools.alloc, copy);
        if !tools.turn(desk, pass, taken, turn) {
            return false;
        }
        *hand = None;
        tools.signals.note_finished();
        true
    }

    /// Works until all is to stop, once each kind has published its first list. A worker that finds no key sleeps until one comes.
    pub fn work(&mut self)
        ensures { WorksUntilStop L.shows A.answers (at_board self.old.hand self.old.tools.listers self.old.tools.api (known self.old.pass))
            (at_board self.new.hand self.new.tools.listers self.new.tools.api (known self.new.pass)) }
    {
        if !self.tools.signals.await_lists(self.tools.rt) {
            return;
        }
        for _ in self.tools.rt.forever() {
            // Read first: a stop that comes after is a ring past it.
            let seen = self.tools.signals.work_seen();
            if self.tools.signals.stop.is_stopped() {
                return;
            }
            if !self.take() {
                self.tools.signals.await_work(self.tools.rt, seen);
            } else if !self.turn() {
                return;
            }
        }
    }
}
