//! What is written at a desk, and how its passes meet.
ghost use Rattle.std.specs.Prelude.{◌≡◌, ◌<◌, None, IfOk, All, length};
ghost use Rattle.baton.specs.Batons.{AreNumbered};
ghost use Rattle.baton.specs.Marks.{entries};
ghost use Rattle.baton.specs.Passes.{Met};
ghost use Rattle.spec_api.specs.Verbs.{accept};
ghost use Rattle.spec_api.specs.Verbs as outcomes;
ghost use Rattle.server.specs.Replies.{Replies};
ghost use Rattle.request_parts.specs.Requests.{request_of};
ghost use Rattle.spec_server.specs.Servers.{after_entries};
ghost use Rattle.desk.specs.Desks.{known, window_size, IsPassAt, IsNewAt, IsHolding};
ghost use Rattle.desk.specs.Histories.{written, IsOpening, MayFollow};
ghost use Rattle.desk.specs.Steps.{Step, HasTaken, after_give};
ghost use Rattle.desk.specs.Told.{once_ok, Answers};

use crate::askings::Asking;
use crate::desks::{Desk, StorePass};
use crate::entries::StoreEntry;
use crate::served::ServedReply;
use crate::steps;
use baton::{Baton, EntryMade, Held};
use metadata_values::moments::Moment;
use object_keys::Fault;
use reply::Reply;
use request_parts::Request;
use server::Server;
use std::alloc::{AllocError, Global};
use std::marker::Brand;
use std::sync::Wait;

impl<A: Asking> Desk<A> {
    /// Returns a desk over a server where nothing is there, that records the last `window` changes of each kind, and as many
    /// passes as asked for. The error is out of memory.
    pub fn open(
        alloc: Global,
        window: usize,
        count: usize,
    ) -> Result<(Desk<A>, Vec<StorePass>), AllocError>
        requires { 0 < count }
        ensures passes { IfOk result (λ r. All (IsNewAt r.0) r.1.items) }
        ensures count { IfOk result (λ r. length r.1.items ≡ count) }
        ensures names { IfOk result (λ r. AreNumbered r.1.items) }
        ensures window { IfOk result (λ r. window_size r.0 ≡ window) }
    {
        let server = Server::new(alloc, window)?;
        let (baton, passes) = Baton::open(alloc, server, count)?;
        Ok((Desk { baton, window }, passes))
    }

    /// Returns the reply to a request at a moment, after which what it writes is written. The pass has then seen all that had
    /// happened, and the write. An error, a refusal or out of memory, writes nothing.
    pub fn call<R: Wait>(
        &self,
        rt: &R,
        alloc: Global,
        pass: &mut StorePass,
        request: Request,
        moment: Moment,
    ) -> Result<Reply, Fault>
        requires pass { IsPassAt self.now pass.old }
        requires asked { A.MayAsk (request_of request) }
        ensures pass { IsPassAt self.now pass.new }
        ensures call { Step A.MayAsk (known pass.old)
            (λ h. once_ok result (written (outcomes.write_of (accept (request_of request) h moment))))
            (λ h. Replies (accept (request_of request) h moment) result) (known pass.new) }
    {
        match self.serve(rt, alloc, pass, request, moment) {
            Ok(served) => Ok(served.reply),
            Err(fault) => Err(fault),
        }
    }

    /// Compares what two passes know of one another: one has seen all that the other has, and in it stands what both made. It
    /// waits for nobody and changes nothing.
    pub fn meet(&self, one: &mut StorePass, other: &mut StorePass)
        requires one { IsPassAt self.now one.old }
        requires other { IsPassAt self.now other.old }
        ensures passes { IsPassAt self.now one.new × IsPassAt self.now other.new }
        ensures one { known one.new ≡ known one.old }
        ensures other { known other.new ≡ known other.old }
        ensures met { Met IsOpening after_entries (MayFollow A.MayAsk) (known one.new) (known other.new) }
    {
        self.baton.meet(one, other);
    }

    /// Returns the reply to a request, and whether it wrote something.
    pub(crate) fn serve<R: Wait>(
        &self,
        rt: &R,
        alloc: Global,
        pass: &mut StorePass,
        request: Request,
        moment: Moment,
    ) -> Result<ServedReply, Fault>
        requires pass { IsPassAt self.now pass.old }
        requires asked { A.MayAsk (request_of request) }
        ensures pass { IsPassAt self.now pass.new }
        ensures call { Step A.MayAsk (known pass.old)
            (λ h. once_ok result (written (outcomes.write_of (accept (request_of request) h moment))))
            (λ h. Answers (accept (request_of request) h moment) result) (known pass.new) }
    {
        let held = self.take(rt, pass);
        self.serve_held::<Brand, R>(rt, alloc, pass, held, request, moment)
    }

    /// Takes the server. The pass learns all that has happened.
    pub(crate) fn take<R: Wait>(&self, rt: &R, pass: &mut StorePass) -> Held<Server>
        requires { IsPassAt self.now pass.old }
        ensures holding { IsHolding self.now pass.new result }
        ensures taken { HasTaken A.MayAsk (known pass.old) (known pass.new) }
    {
        self.baton.take(rt, pass)
    }

    /// Gives the server back as it was.
    pub(crate) fn give_back<R: Wait>(&self, rt: &R, pass: &mut StorePass, held: Held<Server>)
        requires { IsHolding self.now pass.old held }
        ensures pass { IsPassAt self.now pass.new }
        ensures known { known pass.new ≡ after_give (known pass.old) None }
    {
        self.baton.give::<Brand, R>(rt, pass, held);
    }

    /// Serves a request by the server that the pass holds, and gives the server back.
    fn serve_held<M: EntryMade<StoreEntry>, R: Wait>(
        &self,
        rt: &R,
        alloc: Global,
        pass: &mut StorePass,
        held: Held<Server>,
        request: Request,
        moment: Moment,
    ) -> Result<ServedReply, Fault>
        requires pass { IsHolding self.now pass.old held }
        requires asked { A.MayAsk (request_of request) }
        requires entry { M.entry ≡ written (outcomes.write_of (accept (request_of request) (entries (known pass.old).seen) moment)) }
        ensures pass { IsPassAt self.now pass.new }
        ensures reply { Answers (accept (request_of request) (entries (known pass.old).seen) moment) result }
        ensures known { known pass.new ≡ after_give (known pass.old) (once_ok result M.entry) }
    {
        let mut held = held;
        // says that it is a moment of the calendar
        let _ = moment.as_bytes();
        match steps::serve(alloc, &mut held, request, moment) {
            Ok(served) => {
                self.baton.give::<M, R>(rt, pass, held);
                Ok(served)
            }
            Err(fault) => {
                self.give_back(rt, pass, held);
                Err(fault)
            }
        }
    }
}
