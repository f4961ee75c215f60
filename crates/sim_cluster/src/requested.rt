//! What workers reach of a cluster: its objects, and the requests that they make of its server.
use crate::clusters::Cluster;
use meta::{StoredObject, Write};
use object_keys::{Fault, Key};
use reply::Reply;
use request_parts::Request;
use spec_api::kinds::Kind;
use std::alloc::{AllocError, Global};

impl Cluster {
    ghost use Rattle.std.specs.Prelude.{◌≡◌, OnOk, OnErr, option_map};
    ghost use Rattle.spec_laws.specs.AnswerLaws.{IsOfObject};
    ghost use Rattle.verb_parts.specs.Serves.{Serves};
    ghost use Rattle.spec_api.specs.History.{found};
    ghost use Rattle.spec_api.specs.Reached.{CanBeRead};
    ghost use Rattle.object_keys.specs.Keys.{key_of};
    ghost use Rattle.meta.specs.Writes.{write_of};
    ghost use Rattle.request_parts.specs.Requests.{request_of};
    ghost use Rattle.line_session.specs.SessionStates.{accepted};
    ghost use Rattle.sim_cluster.specs.ClusterStates.{follower};
    ghost use Rattle.sim_cluster.specs.Requested.{have_all_listed, IsWriteOf, IsRead, written};

    /// Returns whether the first list of a kind was published.
    fn has_listed(&self, kind: Kind) -> bool
        ensures { result ≡ (follower kind self.now).has_listed }
    {
        self.follower(kind).has_listed()
    }

    /// Returns whether the first list of each kind was published (client-go, `HasSynced`). It takes no memory.
    pub fn has_synced(&self) -> bool
        ensures { result ≡ have_all_listed self.now }
    {
        Kind::ALL.iter().all(|kind| self.has_listed(*kind))
    }

    /// Returns the object under a key at the server, if there is one. It takes no memory.
    pub fn get(&self, key: &Key) -> Option<&StoredObject>
        ensures { option_map (λ o. o.now.value) result ≡ found (key_of key.now) self.now.session.server.snapshot.members }
    {
        self.recorded.server().get(key)
    }

    /// Returns the reply to a request of one object with what it writes, or why it is refused. Nothing is written yet: whoever has to make
    /// something of the reply first takes the write with `take_write`. It asks for a body as it can be read of bytes; then the reply's text is
    /// read as the answer.
    pub fn answer_request(
        &self,
        alloc: Global,
        request: Request,
    ) -> Result<(Reply, Option<Write>), Fault>
        requires readable { CanBeRead (request_of request) }
        requires object { IsOfObject (request_of request) }
        ensures serves { Serves (accepted self.now.session (request_of request)) result }
        ensures read { IsRead (accepted self.now.session (request_of request)) }
    {
        self.recorded.answer(alloc, request)
    }

    /// Makes the write of an answer, if it writes anything. The error is running out of memory, and changes nothing.
    pub fn take_write(&mut self, write: Option<Write>) -> Result<(), AllocError>
        requires { IsWriteOf self.old.session (option_map write_of write) }
        ensures ok { OnOk result (self.new ≡ written (option_map write_of write) self.old) }
        ensures err { OnErr result (self.new ≡ self.old) }
    {
        self.recorded.take(write)
    }
}
