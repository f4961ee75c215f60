//! Published changes, handled.
ghost use Rattle.control_desk.specs.Desks.{IsPassAt};

use crate::handling::Handling;
use crate::origins::Origin;
use control_desk::{ControlDesk, WorkPass};
use indexer::{Indexed, Shift};
use informer::Listers;
use list_and_watch::{Cause, Onward, Sink, shows_other_server};
use manager_worker::Signals;
use object_keys::PerKind;
use spec_api::kinds::Kind;
use std::alloc::{AllocError, Global};
use std::sync::Wait;
use std::time::Clock;

/// What handles the changes that an informer publishes: each pod that they show counts as created or deleted, and each key that they owe
/// waits in the queue. A change of the first list shows no pod that was waited for: its pods are older than everything that is expected.
#[derive(Drop)]
pub struct Handler<'a, R> {
    rt: &'a R,
    alloc: Global,
    /// The kind of which changes are handled.
    kind: Kind,
    desk: &'a ControlDesk,
    pass: WorkPass,
    signals: &'a Signals,
    listers: Listers,
    /// What is published of all kinds, while the changes of one publish are handled.
    looks: Option<PerKind<Indexed>>,
    /// How many of these changes were handled.
    handled: usize,
    /// How many of the keys that are looked at again after them were added.
    added: usize,
    /// The revision that was published last.
    revision: u64,
    ghost sits: { IsPassAt desk.now pass },
}

impl<'a, R: Wait + Clock> Handler<'a, R> {
    ghost use Rattle.std.specs.Prelude.{◌≡◌, OnOk, OnErr, IfSome, map, drop, None, Some};
    ghost use Rattle.indexer.specs.Shifted.{shift_of};
    ghost use Rattle.control_desk.specs.Desks.{known, IsPassAt};
    ghost use Rattle.manager.specs.Handled.{HandlesAll, Stops, Progress, is_other};
    ghost use Rattle.manager.specs.Looked.{AreLookedAt};

    /// Returns what handles the changes of a kind of which nothing was published yet.
    pub fn new(
        rt: &'a R,
        alloc: Global,
        kind: Kind,
        desk: &'a ControlDesk,
        pass: WorkPass,
        signals: &'a Signals,
        listers: Listers,
    ) -> Handler<'a, R>
        requires { IsPassAt desk.now pass }
        ensures { (result.kind ≡ kind) × (result.looks ≡ None) × (result.handled ≡ 0) × (result.added ≡ 0) × (result.revision ≡ 0) }
    {
        Handler {
            rt,
            alloc,
            kind,
            desk,
            pass,
            signals,
            listers,
            looks: None,
            handled: 0,
            added: 0,
            revision: 0,
        }
    }

    /// Looks at what is published of all kinds, unless that was done since the last publish. The error is running out of memory.
    fn look(&mut self) -> Result<(), AllocError>
        ensures looked { IfSome self.new.looks (AreLookedAt self.old.looks self.new.listers.listers) }
        ensures none { self.new.looks ≡ None → self.old.looks ≡ None }
        ensures err { OnErr result (self.new.looks ≡ self.old.looks) }
        ensures revision { self.new.revision ≡ self.old.revision }
        ensures kind { self.new.kind ≡ self.old.kind }
        ensures pass { known self.new.pass ≡ known self.old.pass }
        ensures handled { self.new.handled ≡ self.old.handled }
        ensures added { self.new.added ≡ self.old.added }
    {
        if self.looks.is_none() {
            self.looks = self.listers.all_published()?;
        }
        Ok(())
    }

    /// Returns whether what is published is another server's: it is older than what was published before, or its changes show so.
    fn is_other(&self, shifts: &[Shift], objects: &Indexed) -> bool
        ensures { result ≡ is_other self.now.revision objects.now (map shift_of shifts.now) }
    {
        objects.revision() < self.revision || shows_other_server(shifts)
    }

    /// Handles the changes of a publish but those that were handled, and then adds the keys that are looked at again but those that were added. The error
    /// is running out of memory, or that an informer is closed: some more are handled then, and the others are left.
    fn handle_from(&mut self, shifts: &[Shift], origin: Origin) -> Result<(), AllocError>
        ensures ok { OnOk result (HandlesAll origin self.old.looks self.new.listers.listers
            (drop self.old.handled (map shift_of shifts.now)) self.old.added (known self.old.pass) (known self.new.pass)) }
        ensures err { OnErr result (Stops origin
            (record { kind = self.old.kind; handled = self.old.handled; added = self.old.added; revision = self.old.revision; looks = self.old.looks })
            (map shift_of shifts.now) self.new.listers.listers (known self.old.pass) (known self.new.pass)
            (record { kind = self.new.kind; handled = self.new.handled; added = self.new.added; revision = self.new.revision; looks = self.new.looks })) }
        ensures revision { self.new.revision ≡ self.old.revision }
        ensures kind { self.new.kind ≡ self.old.kind }
    {
        self.look()?;
        let Some(looks) = &self.looks else {
            return Err(AllocError);
        };
        let handling = Handling {
            rt: self.rt,
            alloc: self.alloc,
            desk: self.desk,
            looks,
            origin,
        };
        handling.handle_all(&mut self.pass, &mut self.handled, &mut self.added, shifts)
    }
}

impl<R: Wait + Clock> Sink for Handler<'_, R> {
    ghost use Rattle.control_desk.specs.Desks.{known};
    ghost use Rattle.manager.specs.Handled.{Takes, Refuses};
    ghost use Rattle.std.specs.Prelude.{◌≡◌};

    ghost takes = { λ before shifts objects cause after.
        Takes cause (record { kind = before.kind; handled = before.handled; added = before.added; revision = before.revision; looks = before.looks }) objects shifts after.listers.listers
        (known before.pass) (known after.pass)
        (record { kind = after.kind; handled = after.handled; added = after.added; revision = after.revision; looks = after.looks }) };

    ghost refuses = { λ before shifts objects cause after.
        Refuses cause (record { kind = before.kind; handled = before.handled; added = before.added; revision = before.revision; looks = before.looks }) objects shifts after.listers.listers
        (known before.pass) (known after.pass)
        (record { kind = after.kind; handled = after.handled; added = after.added; revision = after.revision; looks = after.looks }) };

    ghost answers = { λ before onward after. after ≡ before };

    ghost hears = { λ before after. after ≡ before };

    /// Handles the changes of a publish, one after another, adds after a list that is not the first the keys that are looked at again, and then wakes the
    /// workers. Where memory runs out, what was handled is not handled again. Where the changes are another server's, none is handled, and all is to stop.
    fn changed(
        &mut self,
        shifts: &[Shift],
        objects: &Indexed,
        cause: Cause,
    ) -> Result<(), AllocError> {
        if self.is_other(shifts, objects) {
            self.signals.note_lost();
            return Ok(());
        }
        let origin = Origin {
            kind: self.kind,
            revision: objects.revision(),
            cause,
        };
        self.handle_from(shifts, origin)?;
        self.looks = None;
        self.handled = 0;
        self.added = 0;
        self.revision = objects.revision();
        if cause == Cause::FirstList {
            self.signals.note_listed();
        }
        self.signals.announce_work();
        Ok(())
    }

    /// All that the controllers know is of a server that is there no more: so all is to stop.
    fn other_server(&mut self) {
        self.signals.note_lost();
    }

    fn goes_on(&mut self) -> Onward {
        if self.signals.stop.is_stopped() {
            Onward::Stop
        } else {
            Onward::GoOn
        }
    }
}
