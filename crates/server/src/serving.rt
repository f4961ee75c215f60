//! Requests, answered one after another.
use crate::servers::Server;
use meta::Write;
use metadata_values::moments::Moment;
use object_keys::Fault;
use reply::Reply;
use request_parts::Request;
use std::alloc::Global;
use watch_cache::Change;
use watch_cache::changes::copied;

impl Server {
    ghost use Rattle.std.specs.Prelude.{◌≡◌, OnOk, OnErr, IfErr, IfSome, option_map, false};
    ghost use Rattle.verb_parts.specs.Serves.{Serves};
    ghost use Rattle.spec_server.specs.Servers.{after_write, after_writing};
    ghost use Rattle.spec_api.specs.Verbs as outcomes;
    ghost use Rattle.spec_api.specs.Verbs.{accept_at, overflows};
    ghost use Rattle.meta.specs.Writes.{write_of};
    ghost use Rattle.object_keys.specs.declared.fault.Fault.TheVariants as fault;
    ghost use Rattle.request_parts.specs.Requests.{request_of};
    ghost use Rattle.server.specs.Replies.{Replies};

    /// Answers a request at a moment, applies what it writes, and returns the reply. An error, a refusal or running out of
    /// memory, changes nothing: all memory is taken before the store changes.
    pub fn serve(&mut self, alloc: Global, request: Request, moment: Moment) -> Result<Reply, Fault>
        ensures reply { Replies (accept_at (request_of request) self.old.snapshot.members self.old.snapshot.revision moment) result }
        ensures ok { OnOk result (self.new
            ≡ after_writing self.old (outcomes.write_of (accept_at (request_of request) self.old.snapshot.members self.old.snapshot.revision moment))) }
        ensures err { OnErr result (self.new ≡ self.old) }
    {
        let (reply, write) = verbs::accept(alloc, &self.store, request, moment)?;
        match write {
            None => Ok(reply),
            Some(write) => {
                self.take(write)?;
                Ok(reply)
            }
        }
    }

    /// Returns the reply to a request at a moment with what it writes, or why it is refused. Nothing is written yet: whoever
    /// has to make something of the reply first takes the write with `take`.
    pub fn answer(
        &self,
        alloc: Global,
        request: Request,
        moment: Moment,
    ) -> Result<(Reply, Option<Write>), Fault>
        ensures { Serves (accept_at (request_of request) self.now.snapshot.members self.now.snapshot.revision moment) result }
    {
        verbs::accept(alloc, &self.store, request, moment)
    }

    /// Applies a write for which there is room, as there is for what a reply to a request writes. An error, running out of
    /// memory, changes nothing.
    pub fn take(&mut self, write: Write) -> Result<(), Fault>
        requires { overflows self.old.snapshot.members self.old.snapshot.revision (write_of write) ≡ false }
        ensures ok { OnOk result (self.new ≡ after_write self.old (write_of write)) }
        ensures memory { IfErr result (λ e. e ≡ fault.NoMemory) }
        ensures err { OnErr result (self.new ≡ self.old) }
    {
        let key = write.key.try_copy()?;
        let new = copied(write.put.as_ref())?;
        let old = self.store.apply(write)?;
        let revision = self.revision();
        self.record(Change {
            revision,
            key,
            old,
            new,
        });
        Ok(())
    }
}
